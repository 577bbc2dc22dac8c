// Comparing what a call has answered and written with the fields of a record.
ghost use Rattle.std.specs.Prelude.{◌≡◌, ℕ, ◌/◌, ◌<◌, ◌≤◌, true, [], ◌∷◌, length};
ghost use Rattle.vectors.specs.File.{wanted_step, wanted_key, AsFields, AsSteps, AsKeys, Filled};

use crate::file::{byte, count, short};
use crate::rooms::{NO_KEY, pattern};
use planner::Answer;

// Whether a list has so many places, and each item is the one for its place.
fn holds<T: Copy, F: Fn(usize, T) -> bool>(n: usize, list: &[T], same: F) -> bool
    requires { (i : ℕ) (x : T) → i < length list.now → F.pre same i x }
    ensures { result ≡ true → (n ≤ length list.now) × Filled (λ i x. F.post same i x true) (length list.now) list.now }
{
    if list.len() < n {
        return false;
    }
    for (i, &item) in list.iter().enumerate() {
        if !same(i, item) {
            return false;
        }
    }
    true
}

// Whether the refusal and every field that the record has are answered. More fields than the call has are refused.
pub fn same_fields(answers: &[u8], got: &[usize]) -> bool
    requires { length got.now ≤ 64 }
    ensures { result ≡ true → AsFields answers.now got.now }
{
    holds(answers.len().div_ceil(4), got, |i, number| {
        answers.len() <= 4 * i || number == count(answers, 4 * i)
    })
}

// What a step list must hold at a place.
fn wanted_step(codes: &[u8], n: usize, i: usize) -> u16
    requires { n < 9223372036854775808 }
    ensures { result ≡ wanted_step codes.now n i }
{
    if i < n {
        short(codes, 2 * i)
    } else {
        pattern(i)
    }
}

// Whether a step list holds the codes, and the rest is untouched.
pub fn same_steps(codes: &[u8], steps: &[u16]) -> bool
    ensures { result ≡ true → AsSteps codes.now (length codes.now / 2) steps.now }
{
    let n = codes.len() / 2;
    holds(n, steps, |i, step| step == wanted_step(codes, n, i))
}

// What a list of keys must hold at a place.
fn wanted_key(keys: &[u8], i: usize) -> u8
    ensures { result ≡ wanted_key keys.now i }
{
    if i < keys.len() {
        byte(keys, i)
    } else {
        NO_KEY
    }
}

// Whether a list holds the keys, and the rest is untouched.
pub fn same_keys(keys: &[u8], list: &[u8]) -> bool
    ensures { result ≡ true → AsKeys keys.now list.now }
{
    holds(keys.len(), list, |i, key| key == wanted_key(keys, i))
}

pub fn same_answer(answers: &[u8], a: Answer) -> bool
    ensures { result ≡ true → AsFields answers.now
        (a.refusal ∷ a.found ∷ a.step_count ∷ a.plan_gas ∷ a.plan_bytes ∷ a.ceiling_gas ∷ a.ceiling_bytes ∷ a.origin ∷ a.ending ∷ a.expansions ∷ a.highest ∷ []) }
{
    same_fields(
        answers,
        &[
            a.refusal as usize,
            a.found as usize,
            a.step_count,
            a.plan_gas as usize,
            a.plan_bytes as usize,
            a.ceiling_gas as usize,
            a.ceiling_bytes as usize,
            a.origin as usize,
            a.ending as usize,
            a.expansions,
            a.highest,
        ],
    )
}

// A builder answers a refusal and a step count.
// The refusal is a number, as C gets it.
pub fn same_count(answers: &[u8], refusal: u32, n: usize) -> bool
    ensures { result ≡ true → AsFields answers.now (refusal ∷ n ∷ []) }
{
    same_fields(answers, &[refusal as usize, n])
}
