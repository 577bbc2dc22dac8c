// Star-swap: the call, its checks, and the trail over the lists of slots by key.
#![tactic(auto)]

ghost use Rattle.std.specs.Prelude.{◌≡◌, true, ◌+◌, ◌++◌, ◌≤◌, ◌<◌, length, drop, replicate};
ghost use Rattle.costs.specs.Refusal.{refusal_of};
ghost use Rattle.std.specs.Option.{is_some};
ghost use Rattle.star_swap.specs.Chain.{slot, no_arcs, Held, Took, Ready, Given};
ghost use Rattle.star_swap.specs.Ended.{Ended};
ghost use Rattle.star_swap.specs.StarCode.{Pair, LinkedAt, Wrote};
ghost use Rattle.star_swap.specs.StarLoop.{Appended};
ghost use Rattle.star_swap.specs.Star.{star_swaps, code, codes};
ghost use Rattle.star_swap.specs.Refusal.{same_counts, are_keys_same, unroutable, builder_refusal, swap_refusal, written_of, star_swapped};
ghost use Rattle.star_swap.specs.Check.{Counts};

use arrayvec::ArrayVec;
use costs::{Refusal, Step};

// In place of a slot, where there is none: no window has a slot 255.
const NO_ARC: u8 = 255;

// The misplaced slots by the key that each needs, rising: the first of each key, and behind each slot the next of its key.
// Bytes: an Option takes two, and the test whether any is left is then no vector.
#[derive(Drop)]
struct Arcs {
    head: [u8; 64],
    next: [u8; 21],
}

impl Arcs {
    // The misplaced slots of two windows, from the last up each in front of its key's list.
    fn link(&mut self, cur: &[u8], goal: &[u8])
        requires pair { Pair cur.now goal.now × (0 < length cur.now) }
        requires empty { self.old ≡ no_arcs }
        ensures { LinkedAt cur.now goal.now 1 self.new }
    {
        for slot in (1..cur.len()).rev() {
            let need = goal[slot] as usize;
            if cur[slot] != goal[slot] {
                self.next[slot] = self.head[need];
                self.head[need] = slot as u8;
            }
        }
    }

    // The first slot that needs a key, which leaves the lists.
    // A key is a byte of a list that C lends and no type of its own, so that it is below 64 is asked.
    fn take(&mut self, key: u8) -> Option<u8>
        requires { Held self.old × (key < 64) }
        ensures { Took key self.old result self.new }
    {
        let slot = self.head[key as usize];
        // A byte above the last slot is `NO_ARC`; a comparison with a small number is a shorter instruction.
        if 20 < slot {
            return None;
        }
        self.head[key as usize] = self.next[slot as usize];
        Some(slot)
    }

    // The trail from a key: its slots leave the lists and stand, in the order of the swaps, over the last places of `slots`; the first of these places.
    // Lent and filled from the end: a list that is turned and handed back is copied while its bytes are on their way to memory.
    // A loop that follows the stack and counts no index but that place.
    fn trail(&mut self, cur: &[u8], start: u8, slots: &mut [u8; 20]) -> usize
        requires { Ready cur.now start self.old }
        ensures given { Given cur.now start self.old self.new (drop result slots.new) }
        ensures in_bounds { result ≤ 20 }
    {
        let mut stack: ArrayVec<u8, 20> = ArrayVec::new();
        let mut first = 20;
        let mut key = start;
        loop {
            if let Some(slot) = self.take(key) {
                stack.push(slot);
                key = cur[slot as usize];
            } else {
                let Some(slot) = stack.pop() else {
                    return first;
                };
                first -= 1;
                slots[first] = slot;
                key = match stack.last() {
                    Some(&below) => cur[below as usize],
                    None => start,
                };
            }
        }
    }

    // Whether no slot is left, as of most windows after the first trail. A fold: `any`, with a branch for each key, takes as long as all the rest.
    fn is_empty(&self) -> bool
        ensures { result ≡ true → Ended self.now }
    {
        !self
            .head
            .iter()
            .fold(false, |any, &slot| any | (slot != NO_ARC))
    }

    // Whether a slot needs the key, below 64 as in `take`.
    fn has(&self, key: u8) -> bool
        requires { key < 64 }
        ensures { result ≡ is_some (slot self.now.head key) }
    {
        self.head[key as usize] != NO_ARC
    }
}

// The code of a swap.
fn swap_code(d: u8) -> u16
    ensures { result ≡ code d }
{
    u16::from(Step::Swap(d))
}

// The slots as swaps over the places of `steps` from `start` on: the place behind the last. `end` is the place of the next one, since the list is
// the caller's: an `ArrayVec` of swaps had to be copied there.
fn write(slots: &[u8], start: usize, steps: &mut [u16]) -> usize
    requires { start + length slots.now ≤ length steps.old }
    ensures { Wrote steps.old start (codes slots.now) steps.new result }
{
    let mut end = start;
    for &slot in slots {
        steps[end] = swap_code(slot);
        end += 1;
    }
    end
}

// The swaps that turn `cur` into `goal`, from the place `start` of `steps` on, in any list: the place behind the last.
pub fn star(cur: &[u8], goal: &[u8], start: usize, steps: &mut [u16]) -> usize
    requires pair { Pair cur.now goal.now }
    requires start_in_bounds { start + 30 ≤ length steps.old }
    ensures { Appended cur.now goal.now steps.old start steps.new result }
{
    let Some(&top) = cur.first() else {
        return start;
    };
    let mut arcs = Arcs {
        head: [NO_ARC; 64],
        next: [NO_ARC; 21],
    };
    arcs.link(cur, goal);
    let mut slots = [0; 20];
    let first = arcs.trail(cur, top, &mut slots);
    let mut end = write(&slots[first..], start, steps);
    if arcs.is_empty() {
        return end;
    }
    for key in 0..64 {
        if arcs.has(key) {
            let first = arcs.trail(cur, key, &mut slots);
            let circuit = &slots[first..];
            if let Some(&enter) = circuit.last() {
                steps[end] = swap_code(enter);
                end = write(circuit, end + 1, steps);
            }
        }
    }
    end
}

// The swaps that turn `cur` into `goal`, behind the steps so far: places are made for them, since `star` writes into any list, and the rest go.
pub fn route(cur: &[u8], goal: &[u8], steps: &mut ArrayVec<u16, 128>)
    requires pair { Pair cur.now goal.now }
    requires room { length steps.old.items ≤ 98 }
    ensures { steps.new.items ≡ steps.old.items ++ codes (star_swaps cur.now goal.now) }
{
    let start = steps.len();
    let Ok(()) = steps.try_extend_from_slice(&[0; 30]) else {
        return;
    };
    let end = star(cur, goal, start, steps);
    steps.truncate(end);
}

// How often each key below 64 stands in the list, into a table of zeros: the caller's, since a table that is handed back is copied while its bytes
// are on their way to memory.
pub fn count_into(w: &[u8], a: &mut [u8; 64])
    requires { (length w.now ≤ 255) × (a.old ≡ replicate 64 0) }
    ensures { Counts w.now a.new }
{
    for &key in w {
        if key < 64 {
            a[key as usize] += 1;
        }
    }
}

// The table of `count_into`, handed back.
pub fn counts(w: &[u8]) -> [u8; 64]
    requires { length w.now ≤ 255 }
    ensures { Counts w.now result }
{
    let mut a = [0; 64];
    count_into(w, &mut a);
    a
}

// Whether two windows hold each key equally often.
fn same_counts(a: &[u8], b: &[u8]) -> bool
    requires { (length a.now ≤ 255) × (length b.now ≤ 255) }
    ensures { result ≡ same_counts 64 a.now b.now }
{
    let mut x = [0; 64];
    let mut y = [0; 64];
    count_into(a, &mut x);
    count_into(b, &mut y);
    x == y
}

// Whether two windows of one length hold the same keys from a place on.
fn same_from(a: &[u8], b: &[u8], from: usize) -> bool
    requires { length a.now ≡ length b.now }
    ensures { result ≡ are_keys_same (drop from a.now) (drop from b.now) }
{
    let from = from.min(a.len());
    a[from..] == b[from..]
}

// Refusal 9: no swaps below `swap_max` turn the start into the goal.
#[tactic(auto, unfolding(crate::specs::Refusal::unroutable))]
pub fn not_routable(start: &[u8], goal: &[u8], swap_max: usize) -> bool
    requires { (length start.now ≤ 255) × (length goal.now ≤ 255) }
    ensures { result ≡ unroutable swap_max start.now goal.now }
{
    start.len() != goal.len() || !same_counts(start, goal) || !same_from(start, goal, swap_max)
}

// The rows of the table that star-swap and delete-tail share: refusals 1 and 5 to 7.
#[tactic(auto, unfolding(crate::specs::Refusal::builder_refusal))]
pub fn check_shared(
    start: &[u8],
    goal: &[u8],
    swap_max: usize,
    places: usize,
) -> Result<(), Refusal>
    ensures { refusal_of result ≡ builder_refusal swap_max start.now goal.now places 0 }
{
    if 17 < swap_max {
        return Err(Refusal::Reach);
    }
    if costs::any_over(start, 63) || costs::any_over(goal, 63) {
        return Err(Refusal::Key);
    }
    if 21 < start.len() || 21 < goal.len() {
        return Err(Refusal::Length);
    }
    if places < 128 {
        return Err(Refusal::ShortList);
    }
    Ok(())
}

// The number of `check_shared`'s refusal, or that of the rows of higher numbers.
pub fn builder_refusal(
    start: &[u8],
    goal: &[u8],
    swap_max: usize,
    places: usize,
    higher: u32,
) -> u32
    ensures { result ≡ builder_refusal swap_max start.now goal.now places higher }
{
    match check_shared(start, goal, swap_max, places) {
        Ok(()) => higher,
        Err(refusal) => refusal.number(),
    }
}

// The refusals, the lowest number first. Row 9 counts keys in bytes, so the lengths are looked at before it.
fn check(start: &[u8], goal: &[u8], swap_max: usize, places: usize) -> Result<(), Refusal>
    ensures { refusal_of result ≡ swap_refusal swap_max start.now goal.now places }
{
    check_shared(start, goal, swap_max, places)?;
    if not_routable(start, goal, swap_max) {
        return Err(Refusal::Swaps);
    }
    Ok(())
}

// What star-swap and delete-tail answer: the number of a refusal or 0, and the number of steps written. A number and no Result, since C gets it.
#[repr(C)]
#[derive(Clone, Copy)]
pub struct Written {
    pub refusal: u32,
    pub count: usize,
}

// Beside a refusal the count is zero. rewind's `Rewound` is the same by the names that C has for it.
impl From<Result<usize, Refusal>> for Written {
    ghost from_gives = { λ answer written. written ≡ written_of answer };

    fn from(answer: Result<usize, Refusal>) -> Written {
        match answer {
            Ok(count) => Written { refusal: 0, count },
            Err(refusal) => Written {
                refusal: refusal.number(),
                count: 0,
            },
        }
    }
}

// As `star_swap`, or why it is refused.
fn try_star_swap(
    start: &[u8],
    goal: &[u8],
    swap_max: usize,
    steps: &mut [u16],
) -> Result<usize, Refusal>
    ensures { (written_of result, steps.new) ≡ star_swapped swap_max start.now goal.now steps.old }
{
    check(start, goal, swap_max, steps.len())?;
    Ok(star(start, goal, 0, steps))
}

// Star-swap: its swaps over the first places of the step list.
pub fn star_swap(start: &[u8], goal: &[u8], swap_max: usize, steps: &mut [u16]) -> Written
    ensures { (result, steps.new) ≡ star_swapped swap_max start.now goal.now steps.old }
{
    Written::from(try_star_swap(start, goal, swap_max, steps))
}
