// The lists that are lent: their room, what they hold before a call, and their lengths.
ghost use Rattle.std.specs.Prelude.{◌≡◌, ℕ, ◌<◌, length};
ghost use Rattle.vectors.specs.File.{code_at, pattern_at, no_key, price_at, Filled, IsPrefixLen};

use crate::file;
use crate::file::{number, short};
use std::array;

// What a result list holds before a call: no key is as great.
pub const NO_KEY: u8 = 201;

// So many entries of a list, or all that there are.
pub fn cut<T>(n: usize, list: &[T]) -> usize
    ensures { IsPrefixLen result list.now }
{
    n.min(list.len())
}

// What a step list holds before a call: no step has such a code.
pub fn pattern(i: usize) -> u16
    ensures { result ≡ pattern_at i }
{
    40000 + (i % 20000) as u16
}

// Each place of a list gets what is given for it.
pub fn fill<T: Copy, F: Fn(usize) -> T>(list: &mut [T], given: F)
    requires { (i : ℕ) → i < length list.old → F.pre given i }
    ensures { Filled (F.post given) (length list.old) list.new }
{
    for (i, item) in list.iter_mut().enumerate() {
        *item = given(i);
    }
}

pub fn fill_steps(steps: &mut [u16])
    ensures { Filled (λ i step. step ≡ pattern_at i) (length steps.old) steps.new }
{
    fill(steps, pattern);
}

pub fn fill_result(res: &mut [u8])
    ensures { Filled (λ i key. key ≡ no_key i) (length res.old) res.new }
{
    fill(res, |_| NO_KEY);
}

// The steps that a record asks.
pub fn load_steps(codes: &[u8], steps: &mut [u16])
    ensures { Filled (λ i step. step ≡ code_at codes.now i) (length steps.old) steps.new }
{
    fill(steps, |i| short(codes, 2 * i));
}

// Work lists hold anything before a call.
pub fn fill_work(list: &mut [u64], seed: u64)
    ensures { length list.new ≡ length list.old }
{
    fill(
        list,
        |i| seed.wrapping_add(11400714819323198485u64.wrapping_mul(i as u64)),
    );
}

// The price list that a record names.
pub fn price_list(bytes: &[u8], rec: &[u8]) -> [u32; 196]
    ensures value { 196 ≡ length result }
    ensures filled { Filled (λ i price. price ≡ price_at bytes.now rec.now i) 196 result }
{
    let table = file::price_list(bytes, rec);
    array::from_fn(|i| number(table, 4 * i))
}
