// The same entries drained through the face and through the heap over a list of numbers, and the two orders compared.
#![tactic(auto)]

ghost use Rattle.std.specs.Prelude.{◌≡◌, true, ◌≤◌, length};
ghost use Rattle.face.specs.Open.{entry_of, queue_in};
ghost use Rattle.lists.specs.View.{waits, queue_of, Piled};
ghost use Rattle.drained.specs.Agree.{Agree};

use costs::Cost;
use heap::Entry;
use std::io;
use window::PackedState;

// The entries: ties in f, in g, in both, in a half of the state, and an entry that is there twice.
const TABLE: [u32; 40] = [
    731205, 731204, 731215, 732105, 721205, 631299, 131205, 131206, 831200, 731205, 400000, 400001,
    400010, 400100, 401000, 410000, 399999, 390000, 309999, 409999, 555555, 555554, 555545, 555455,
    554555, 545555, 455555, 555556, 555565, 555655, 220011, 220110, 221001, 212001, 222000, 220101,
    202211, 220200, 211111, 220002,
];

// An entry by the digits of a number: f's gas and bytes, g's gas and bytes, the halves of the state.
fn entry_of(digits: u32) -> Entry<Cost> {
    Entry {
        f: Cost {
            gas: digits / 100000 % 10,
            bytes: digits / 10000 % 10,
        },
        g: Cost {
            gas: digits / 1000 % 10,
            bytes: digits / 100 % 10,
        },
        state: PackedState {
            hi: (digits / 10 % 10) as u64,
            lo: (digits % 10) as u64,
        },
    }
}

// The entry as the heap has it.
// It is no `From`: neither type is this crate's own, and in heap it would serve this crate alone.
fn numbers(e: Entry<Cost>) -> Entry<u64>
    ensures { waits result ≡ entry_of e }
{
    Entry {
        f: u64::from(e.f),
        g: u64::from(e.g),
        state: e.state,
    }
}

// Whether an entry of the face is an entry of the heap.
#[tactic(auto, unfolding(costs::specs::Packed::cost_of, window::specs::State::whole))]
fn same(e: Entry<Cost>, h: Entry<u64>) -> bool
    ensures { entry_of e ≡ waits h → result ≡ true }
{
    numbers(e) == h
}

// All entries of the table are pushed.
fn fill(list: &mut [u64]) -> [Entry<Cost>; 64]
    requires { 160 ≤ length list.old }
    ensures { Agree result list.new 40 }
{
    let mut open = [entry_of(0); 64];
    for i in 0..40 {
        let e = entry_of(TABLE[i]);
        face::push(&mut open, i, e);
        lists::push(list, i, numbers(e));
    }
    open
}

// Both are drained; whether the entries come in one order.
fn same_order(open: &mut [Entry<Cost>], list: &mut [u64]) -> bool
    requires { Agree «open».old list.old 40 }
    ensures { result ≡ true }
{
    for drawn in 0..40 {
        let n = 40 - drawn;
        let Some(e) = face::take_least(open, n) else {
            return false;
        };
        let h = lists::take(list, n);
        if !same(e, h) {
            return false;
        }
    }
    true
}

fn main(rt: HostRuntime) -> io::Result<()> {
    let mut list = [0u64; 160];
    let mut open = fill(&mut list);
    if same_order(&mut open, &mut list) {
        println!(rt; "40 entries, the same order")
    } else {
        println!(rt; "another order")
    }
}
