// The steps to the successors of a window, in order.
#![tactic(auto)]

ghost use Rattle.std.specs.Prelude.{◌≡◌, List, ℕ, ◌++◌, ◌<◌, ◌≤◌, min, not, length, get_or, take, reverse};
ghost use Rattle.std.specs.Option.{option_to_list};
ghost use Rattle.costs.specs.Kind.{kind_of};
ghost use Rattle.costs.specs.declared.Step.{Step};
ghost use Rattle.window.specs.Keys.{keys_of, Window};
ghost use Rattle.successors.specs.Parts.{up_to, has};
ghost use Rattle.successors.specs.Successors.{common, suffix_start, firsts, kind_is, goal_zero, dup_serves, dominated, reached, swap_at, dup_at, zero_at, other_at, load_at, steps_from};
ghost use Rattle.successors.specs.Keys.{Keyed};
ghost use Rattle.successors.specs.Places.{Placed};
ghost use Rattle.successors.specs.Listed.{Roomy, Gives};
ghost use Rattle.successors.specs.Whole.{asked, Expanding, expanding_prop};

use arrayvec::ArrayVec;
use costs::{Kind, Step};
use replay::SearchCfg;
use window::PackedState;

// What a question says of its successors: the limits, the kinds, the prices, the goal, and the goal's keys in order, each once.
#[derive(Clone, Copy)]
pub struct Asked<'a> {
    pub cfg: SearchCfg,
    pub kinds: &'a [u8],
    pub prices: &'a [u32],
    pub goal: &'a [u8],
    pub keys: &'a [u8],
    ghost accepted: { Expanding (asked cfg kinds.now prices.now goal.now) keys.now } by { expanding_prop (asked cfg kinds.now prices.now goal.now) keys.now },
}

// The keys of a window, how many of them a Dup reaches, and where each key first stands among those.
#[derive(Drop)]
struct Reached<'a> {
    w: &'a [u8],
    reach: usize,
    first: [Option<u8>; 64],
    ghost keyed: { Keyed w.now },
    ghost within: { reach ≤ length w.now },
    ghost placed: { Placed first 0 (take reach w.now) },
}

// How many keys from the bottom on are the same.
pub fn common_suffix(a: &[u8], b: &[u8]) -> usize
    ensures { result ≡ common (reverse a.now) (reverse b.now) }
{
    a.iter()
        .rev()
        .zip(b.iter().rev())
        .take_while(|(x, y)| x == y)
        .count()
}

// The place where the common suffix of the window and the goal starts.
#[tactic(auto, using(crate::specs::Suffix::common_within), unfolding(crate::specs::Successors::suffix_start))]
fn suffix_start(w: &[u8], goal: &[u8]) -> usize
    ensures { result ≡ suffix_start w.now goal.now }
{
    w.len() - common_suffix(w, goal)
}

// The keys of a list in order, each once.
pub fn distinct_keys(list: &[u8]) -> ArrayVec<u8, 21>
    requires { length list.now ≤ 21 }
    ensures { result.items ≡ firsts list.now }
{
    let mut keys = ArrayVec::new();
    for &key in list {
        if !keys.contains(&key) {
            keys.push(key);
        }
    }
    keys
}

impl<'a> Reached<'a> {
    fn new(w: &'a [u8], dup_max: usize) -> Reached<'a>
        requires { Keyed w.now }
        ensures { (result.w.now ≡ w.now) × (result.reach ≡ min (length w.now) dup_max) }
    {
        let reach = w.len().min(dup_max);
        let mut first = [None; 64];
        for i in (0..reach).rev() {
            first[w[i] as usize] = Some(i as u8);
        }
        Reached { w, reach, first }
    }

    // Whether a Dup reaches a key.
    // A key is a byte of a list that C lends and no type of its own, so that it is below 64 is asked.
    fn has(&self, key: u8) -> bool
        requires { key < 64 }
        ensures { result ≡ reached self.now.w.now self.now.reach key }
    {
        let place = self.first[key as usize];
        place.is_some()
    }

    // Whether the key at a place stands nowhere above it.
    fn is_highest(&self, p: usize) -> bool
        requires { p < self.now.reach }
        ensures { result ≡ not (has (get_or self.now.w.now p 0) (take p self.now.w.now)) }
    {
        let place = self.first[self.w[p] as usize];
        place == Some(p as u8)
    }
}

// That a key is below 64 is asked here as in `Reached::has`.
impl Asked<'_> {
    // Whether a key is of the kind.
    #[tactic(auto, unfolding(crate::specs::Successors::kind_is))]
    fn is(&self, kind: Kind, key: u8) -> bool
        requires { key < 64 }
        ensures { result ≡ kind_is self.now.kinds.now (kind_of kind) key }
    {
        self.kinds[key as usize] == u8::from(kind)
    }

    // The push of a key that is the zero.
    #[tactic(auto, using(crate::specs::Parts::offered_is))]
    fn zero(&self, key: u8) -> Option<Step>
        requires { key < 64 }
        ensures { option_to_list result ≡ zero_at self.now.kinds.now key }
    {
        self.is(Kind::Zero, key).then_some(Step::PushImm(key))
    }

    // The Swap at a depth, unless it undoes the last step, changes nothing, or reaches into the common suffix where a Dup could copy the key.
    #[tactic(auto, unfolding(crate::specs::Parts::offer, crate::specs::Successors::swap_offered))]
    fn swap(&self, w: &[u8], start: usize, last: usize, d: usize) -> Option<Step>
        requires { Keyed w.now × (d < length w.now) }
        ensures { option_to_list result ≡ swap_at w.now self.now.cfg.dup_max start last d }
    {
        let offered = 0 < d && d != last && w[0] != w[d] && (d < start || self.cfg.dup_max <= d);
        offered.then_some(Step::Swap(d as u8))
    }

    // Whether a key is a zero that the goal has.
    #[tactic(auto, using(crate::specs::Parts::has_any), unfolding(crate::specs::Successors::goal_zero))]
    fn is_goal_zero(&self, key: u8) -> bool
        requires { key < 64 }
        ensures { result ≡ goal_zero self.now.kinds.now self.now.goal.now key }
    {
        self.is(Kind::Zero, key) && self.goal.contains(&key)
    }

    // The Dup at a position, if it is the key's highest place and the key is no zero that the goal has.
    #[tactic(auto, using(crate::specs::Parts::offered_is), unfolding(crate::specs::Successors::dup_offered))]
    fn dup(&self, near: &Reached<'_>, p: usize) -> Option<Step>
        requires { p < near.now.reach }
        ensures { option_to_list result ≡ dup_at self.now.kinds.now self.now.goal.now near.now.w.now p }
    {
        let offered = near.is_highest(p) && !self.is_goal_zero(near.w[p]);
        offered.then_some(Step::Dup(p as u8))
    }

    // Whether the Dup at a position is of the key and costs no more than its push.
    #[tactic(auto, unfolding(crate::specs::Successors::dup_serves, crate::specs::Successors::price_by))]
    fn serves(&self, near: &Reached<'_>, key: u8, p: usize) -> bool
        requires { p < near.now.reach }
        ensures { result ≡ dup_serves self.now.prices.now near.now.w.now key p }
    {
        if near.w[p] != key {
            return false;
        }
        let dup = costs::price_of(self.prices, Some(Step::Dup(p as u8)));
        let push = costs::price_of(self.prices, Some(Step::PushImm(key)));
        dup.no_more(push)
    }

    // Whether the push of a key is not cheaper than its cheapest reachable Dup.
    #[tactic(auto, unfolding(crate::specs::Successors::dominated))]
    fn is_dominated(&self, near: &Reached<'_>, key: u8) -> bool
        ensures { result ≡ dominated self.now.prices.now near.now.w.now near.now.reach key }
    {
        (0..near.reach).any(|p| self.serves(near, key, p))
    }

    // The push of a key that is another immediate, unless a Dup in reach makes it as cheaply.
    #[tactic(auto, using(crate::specs::Parts::offered_is, crate::specs::Places::alone), unfolding(crate::specs::Successors::other_offered))]
    fn other(&self, near: &Reached<'_>, key: u8) -> Option<Step>
        requires { key < 64 }
        ensures { option_to_list result ≡ other_at self.now.kinds.now self.now.prices.now near.now.w.now near.now.reach key }
    {
        let offered = self.is(Kind::Immediate, key)
            && !(near.has(key) && self.is_dominated(near, key));
        offered.then_some(Step::PushImm(key))
    }

    // The load of a key that is a value, unless a Dup reaches it.
    #[tactic(auto, using(crate::specs::Parts::offered_is), unfolding(crate::specs::Successors::load_offered))]
    fn load(&self, near: &Reached<'_>, key: u8) -> Option<Step>
        requires { key < 64 }
        ensures { option_to_list result ≡ load_at self.now.kinds.now near.now.w.now near.now.reach key }
    {
        let offered = self.is(Kind::Value, key) && !near.has(key);
        offered.then_some(Step::LoadVal(key))
    }
}

// A step behind those there are, if there is one.
fn put(out: &mut ArrayVec<Step, 50>, offered: Option<Step>)
    requires { Roomy out.old.items (option_to_list offered) }
    ensures { out.new.items ≡ out.old.items ++ option_to_list offered }
{
    if let Some(step) = offered {
        out.push(step);
    }
}

// The steps offered for the numbers below a limit, in order, behind those there are.
fn put_each<F: Fn(usize) -> Option<Step>>(out: &mut ArrayVec<Step, 50>, limit: usize, offered: F)
    ghost f: { ℕ → List Step }
    requires gives { Gives (F.pre offered) (F.post offered) limit f }
    requires roomy { Roomy out.old.items (up_to f limit) }
    ensures { out.new.items ≡ out.old.items ++ up_to f limit }
{
    for i in 0..limit {
        put(out, offered(i));
    }
}

impl Asked<'_> {
    ghost use Rattle.successors.specs.View.{question_of, zeros_of, rest_of, grown_of};

    // The push of zero, if a window of so many keys may grow.
    fn put_zeros(&self, out: &mut ArrayVec<Step, 50>, len: usize)
        requires { Roomy out.old.items (zeros_of self.now len) }
        ensures { out.new.items ≡ out.old.items ++ zeros_of self.now len }
    {
        if replay::has_room(self.cfg.max_len, len) {
            put_each(out, self.keys.len(), |i| self.zero(self.keys[i]));
        }
    }

    // The Dups, the pushes of other immediates and the loads.
    fn put_rest(&self, out: &mut ArrayVec<Step, 50>, near: &Reached<'_>)
        requires { Roomy out.old.items (rest_of self.now near.now.w.now near.now.reach) }
        ensures { out.new.items ≡ out.old.items ++ rest_of self.now near.now.w.now near.now.reach }
    {
        let keys = self.keys;
        put_each(out, near.reach, |p| self.dup(near, p));
        put_each(out, keys.len(), |i| self.other(near, keys[i]));
        put_each(out, keys.len(), |i| self.load(near, keys[i]));
    }

    // The same, if the window may grow.
    fn put_grown(&self, out: &mut ArrayVec<Step, 50>, w: &[u8])
        requires keyed { Keyed w.now }
        requires roomy { Roomy out.old.items (grown_of self.now w.now) }
        ensures { out.new.items ≡ out.old.items ++ grown_of self.now w.now }
    {
        if replay::has_room(self.cfg.max_len, w.len()) {
            self.put_rest(out, &Reached::new(w, self.cfg.dup_max));
        }
    }

    // The steps from a window, by the list of its keys.
    fn expand_keys(&self, w: &[u8], last: usize) -> ArrayVec<Step, 50>
        requires { Keyed w.now }
        ensures { result.items ≡ steps_from (question_of self.now) w.now last }
    {
        let len = w.len();
        let start = suffix_start(w, self.goal);
        let limit = len.min(self.cfg.swap_max);
        let mut out = ArrayVec::new();
        put(&mut out, (0 < len).then_some(Step::Pop));
        self.put_zeros(&mut out, len);
        put_each(&mut out, limit, |d| self.swap(w, start, last, d));
        self.put_grown(&mut out, w);
        out
    }

    // The steps to the successors of a state. last is the depth of the Swap just made, or 0: no Swap has that.
    pub fn expand(&self, state: PackedState, last: usize) -> ArrayVec<Step, 50>
        requires { Window state }
        ensures { result.items ≡ steps_from (question_of self.now) (keys_of state) last }
    {
        // In place, with the length beside it: a list that is handed back takes more time.
        let mut held = [0; 21];
        let len = state.write(&mut held);
        self.expand_keys(&held[..len], last)
    }
}
