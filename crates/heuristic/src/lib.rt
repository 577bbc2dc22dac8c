// The heuristic of the search: what is left to pop, to copy and to materialize, key by key.
#![tactic(auto)]

ghost use Rattle.std.specs.Prelude.{◌≡◌, List, [], ◌∷◌, ℕ, ◌+◌, ◌-◌, ◌<◌, ◌≤◌, length};
ghost use Rattle.window.specs.Keys.{keys_of, Window};
ghost use Rattle.heuristic.specs.Heuristic.{gas_of, least_dup, term};
ghost use Rattle.heuristic.specs.Counts.{Counted, KeysFit};
ghost use Rattle.heuristic.specs.Bare.{over_keys};
ghost use Rattle.heuristic.specs.Weighed.{term_of, bare_of, estimate_of, Stands, Few, Changes};
ghost use Rattle.heuristic.specs.LeastDup.{gas_in_hand, LeastTaken};

use costs::Step;
use window::PackedState;

// What the estimates rest on: how often the goal wants each key, the least gas of a Dup, and the prices. The counts are lent: they stand in the
// one `Table` of a question.
#[derive(Clone, Copy)]
pub struct Weights<'a> {
    pub want: &'a [u8; 64],
    pub dup: u32,
    pub prices: &'a [u32],
}

// What one copy more of a key does to an estimate.
#[derive(Clone, Copy)]
enum Change {
    Adds(u32),
    Saves(u32),
}

// The counts of a list of keys, into a table of zeros. star_swap's `count_into` tests each key, which may be any byte; here that test took the
// bench's mean from 0.42 of the Rust's time to 0.451, over its bar.
#[tactic(auto, using(crate::specs::Counts::count_on))]
pub fn count_list(list: &[u8], table: &mut [u8; 64])
    requires { KeysFit list.now × (length list.now ≤ 21) × Counted table.old [] }
    ensures { Counted table.new list.now }
{
    for &key in list {
        table[key as usize] += 1;
    }
}

// The counts of a window, into a table of zeros.
#[tactic(auto, using(window::specs::Keys::keys_length))]
pub fn count_window(state: PackedState, table: &mut [u8; 64])
    requires { Window state × Counted table.old [] }
    ensures { Counted table.new (keys_of state) }
{
    // In place, with the length beside it: a list that is handed back takes more time.
    let mut held = [0; 21];
    let n = state.write(&mut held);
    count_list(&held[..n], table);
}

// The gas of a step.
#[tactic(auto, unfolding(crate::specs::Heuristic::gas_of))]
fn gas_of(prices: &[u32], step: Step) -> u32
    ensures { result ≡ gas_of prices.now step }
{
    costs::price_of(prices, Some(step)).gas
}

// One Dup's price taken, after those of all deeper ones: from the number in hand before it to that after it.
fn take_dup(prices: &[u32], dup_max: usize, p: usize, in_hand: u32) -> u32
    requires p_lt_dup_max { (p < dup_max) × (dup_max ≤ 16) }
    requires in_hand_value { in_hand ≡ gas_in_hand prices.now dup_max (dup_max - 1 - p) }
    ensures value { result ≡ gas_in_hand prices.now dup_max (dup_max - p) }
    ensures least_taken { LeastTaken prices.now dup_max (dup_max - p) result }
{
    in_hand.min(gas_of(prices, Step::Dup(p as u8)))
}

// The least gas of a Dup: the number in hand after the prices of all Dups below dup_max. A loop, and not the least of a chain: the order is
// promised (take_dup), and the least alone does not tell it.
#[tactic(auto, using(crate::specs::LeastDup::all_taken))]
pub fn least_dup(prices: &[u32], dup_max: usize) -> u32
    requires { dup_max ≤ 16 }
    ensures value { result ≡ gas_in_hand prices.now dup_max dup_max }
    ensures value_2 { result ≡ least_dup prices.now dup_max }
{
    let mut in_hand = u32::MAX;
    for p in (0..dup_max).rev() {
        in_hand = take_dup(prices, dup_max, p, in_hand);
    }
    in_hand
}

// What a key adds that is there so often and wanted so often.
#[tactic(auto, unfolding(crate::specs::Heuristic::term))]
fn key_term(pop: u32, dup: u32, mat: u32, have: u8, want: u8) -> u32
    ensures { result ≡ term pop dup mat have want }
{
    if want < have {
        return pop.saturating_mul(u32::from(have - want));
    }
    if have == want {
        return 0;
    }
    let per = mat.min(dup);
    if have == 0 {
        return mat.saturating_add(per.saturating_mul(u32::from(want - 1)));
    }
    per.saturating_mul(u32::from(want - have))
}

// A key is a byte of a list that C lends and no type of its own, so that it is below 64 is asked.
impl Weights<'_> {
    // What a key adds with so many copies there.
    #[tactic(auto, unfolding(crate::specs::Counts::count_term))]
    fn count_term(self, key: u8, count: u8) -> u32
        requires { key < 64 }
        ensures { result ≡ term_of self.entry key count }
    {
        let pop = gas_of(self.prices, Step::Pop);
        let mat = gas_of(self.prices, Step::PushImm(key));
        key_term(pop, self.dup, mat, count, self.want[key as usize])
    }

    // What one copy more of a key does to an estimate, of which so many are there.
    #[tactic(auto, using(crate::specs::Steady::term_pop, crate::specs::Steady::term_mat, crate::specs::Steady::term_per))]
    fn copy(self, key: u8, count: u8) -> Change
        requires { Few self key count }
        ensures { Changes result (term_of self.entry key count) (term_of self.entry key (count + 1)) }
    {
        if self.want[key as usize] <= count {
            return Change::Adds(gas_of(self.prices, Step::Pop));
        }
        let mat = gas_of(self.prices, Step::PushImm(key));
        if count == 0 {
            return Change::Saves(mat);
        }
        Change::Saves(mat.min(self.dup))
    }

    // The estimate of a window with one key more, from the window's estimate and counts.
    pub fn after_push(self, h: u32, have: &[u8; 64], key: u8) -> u32
        requires { (key < 64) × ((w : List ℕ) × ((goal : List ℕ) × Stands self h have.now w goal × (length w + length goal < 42))) }
        ensures { (w : List ℕ) → (goal : List ℕ) → Stands self.entry h have.now w goal → length w + length goal < 42 → result ≡ estimate_of self.entry goal (key ∷ w) }
    {
        match self.copy(key, have[key as usize]) {
            Change::Adds(gas) => h + gas,
            Change::Saves(gas) => h - gas,
        }
    }

    // The estimate of a window without its top key, from the window's estimate and counts.
    pub fn after_pop(self, h: u32, have: &[u8; 64], key: u8) -> u32
        requires { (key < 64) × ((w : List ℕ) × ((goal : List ℕ) × Stands self h have.now (key ∷ w) goal)) }
        ensures { (w : List ℕ) → (goal : List ℕ) → Stands self.entry h have.now (key ∷ w) goal → result ≡ estimate_of self.entry goal w }
    {
        match self.copy(key, have[key as usize] - 1) {
            Change::Adds(gas) => h - gas,
            Change::Saves(gas) => h + gas,
        }
    }

    // What the keys add, in the list each once, with no copy there.
    #[tactic(auto, using(crate::specs::Bare::over_begin))]
    pub fn bare(self, keys: &[u8]) -> u32
        requires { KeysFit keys.now }
        ensures { result ≡ over_keys (bare_of self.entry) keys.now }
    {
        let mut sum = 0u32;
        for &key in keys {
            sum = sum.saturating_add(self.count_term(key, 0));
        }
        sum
    }

    // A key pushed and counted: the estimate with it, from that without it.
    fn count(self, h: u32, have: &mut [u8; 64], key: u8) -> u32
        requires { (key < 64) × ((w : List ℕ) × ((goal : List ℕ) × Stands self h have.old w goal × (length w + length goal < 42))) }
        ensures { (w : List ℕ) → (goal : List ℕ) → Stands self.entry h have.old w goal → length w + length goal < 42 → Stands self.entry result have.new (key ∷ w) goal }
    {
        let h = self.after_push(h, have, key);
        have[key as usize] += 1;
        h
    }

    // The estimate of a window and the counts of its keys, into a table of zeros, from the estimate of the empty window.
    pub fn standing(self, state: PackedState, base: u32, have: &mut [u8; 64]) -> u32
        requires { Window state × ((goal : List ℕ) × Stands self base have.old [] goal × (length goal ≤ 21)) }
        ensures { (goal : List ℕ) → Stands self.entry base have.old [] goal → length goal ≤ 21 → Stands self.entry result have.new (keys_of state) goal }
    {
        // In place, with the length beside it: a list that is handed back takes more time.
        let mut held = [0; 21];
        let n = state.write(&mut held);
        let mut h = base;
        for &key in held[..n].iter().rev() {
            h = self.count(h, have, key);
        }
        h
    }
}
