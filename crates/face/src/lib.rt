// The open list as a slice of entries: a face of the open list, over a lent slice that keeps them in any order. There is no heap memory, so the caller lends
// it and keeps the count. It promises of the queue what the heap over a list of numbers does.
#![tactic(auto)]

ghost use Rattle.std.specs.Prelude.{◌≡◌, ◌<◌, ◌≤◌, length};
ghost use Rattle.face.specs.Open.{lesser_at, held, Pushed, Taken, Removed};

use costs::Cost;
use heap::Entry;

// Which of two places holds the lesser entry: the first, unless its entry comes later.
#[tactic(auto, unfolding(crate::specs::Open::lesser_at))]
fn lesser(a: Entry<Cost>, b: Entry<Cost>, i: usize, j: usize) -> usize
    ensures { result ≡ lesser_at a b i j }
{
    if a <= b { i } else { j }
}

// The least of the first len entries comes out, and the last of them goes in its place.
fn remove_least(open: &mut [Entry<Cost>], len: usize) -> Entry<Cost>
    requires { (0 < len) × (len ≤ length «open».old) }
    ensures { Removed «open».old «open».new len result }
{
    let mut k = 0;
    for i in 1..len {
        k = lesser(open[k], open[i], k, i);
    }
    let least = open[k];
    open[k] = open[len - 1];
    least
}

// The entry goes in after the first len, where there is room; whether there was.
pub fn push(open: &mut [Entry<Cost>], len: usize, e: Entry<Cost>) -> bool
    ensures { Pushed «open».old «open».new len e result }
{
    if len < open.len() {
        open[len] = e;
        return true;
    }
    false
}

// There are len entries in the places, and one at least.
fn is_held(open: &[Entry<Cost>], len: usize) -> bool
    ensures { result ≡ held «open».now len }
{
    0 < len && len <= open.len()
}

// The least of the first len entries is taken, where there is one.
pub fn take_least(open: &mut [Entry<Cost>], len: usize) -> Option<Entry<Cost>>
    ensures { Taken «open».old «open».new len result }
{
    if !is_held(open, len) {
        return None;
    }
    Some(remove_least(open, len))
}
