// The builders: plans made without a search.
#![tactic(auto)]

ghost use Rattle.std.specs.Prelude.{take, ◌≡◌, leb, filter, min, ◌==◌, ◌+◌, ◌-◌, ◌*◌, ◌<◌, ◌≤◌, not, length, position};
ghost use Rattle.std.specs.List.{reduce};
ghost use Rattle.std.specs.Option.{option_map};
ghost use Rattle.costs.specs.Refusal.{refusal_of};
ghost use Rattle.costs.specs.Table.{count_of};
ghost use Rattle.replay.specs.Laws.{Ready};
ghost use Rattle.replay.specs.Machine.{rules_of};
ghost use Rattle.star_swap.specs.StarCode.{Pair};
ghost use Rattle.star_swap.specs.Refusal.{unroutable, written_of};
ghost use Rattle.star_swap.specs.Check.{Window};
ghost use Rattle.builders.specs.Draft.{fresh, does, routed, steps_of, Over, Built};
ghost use Rattle.builders.specs.Tail.{bury, pops, delete_tail, begins, not_tail, tail_refusal, deleted, tail_plan};
ghost use Rattle.builders.specs.TailLaws.{IsTail};
ghost use Rattle.builders.specs.Dup.{drop_at, within, trimmed, made, copied, added, added_times, filled, finished, dup_and_star};
ghost use Rattle.builders.specs.TrimCode.{tried, more_than, Fit};
ghost use Rattle.builders.specs.FillCode.{Room};

use arrayvec::ArrayVec;
use costs::{Refusal, Step};
use replay::Rules;
use star_swap::Written;
use std::marker::Model;
use window::PackedState;

// A plan while it is built: the window that its steps lead to, and the codes of the steps.
#[derive(Drop)]
struct Work {
    state: PackedState,
    steps: ArrayVec<u16, 128>,
}

impl Model for Work {
    ghost use Rattle.window.specs.Keys.{keys_of, Window};
    ghost use Rattle.builders.specs.Draft.{Draft};

    ghost Value = { Draft };

    ghost view = { λ w. record { window = keys_of w.state; steps = w.steps.items } };

    ghost invariant = { λ w. Window w.state };
}

impl Work {
    // No step yet.
    fn begin(start: &[u8]) -> Work
        requires { Window start.now }
        ensures { result ≡ fresh start.now }
    {
        Work {
            state: PackedState::from_ids(start),
            steps: ArrayVec::new(),
        }
    }

    // The number of keys in the window.
    fn len(&self) -> usize
        ensures value { result ≡ length self.now.window }
        ensures fits { result ≤ 21 }
    {
        self.state.len()
    }

    // The keys of the window, the top first, over the first places of the caller's list, which takes less time than a list that is handed
    // back; how many.
    fn write(&self, room: &mut [u8; 21]) -> usize
        ensures fits { result ≤ 21 }
        ensures keys { take result room.new ≡ self.now.window }
        ensures window { Window self.now.window }
    {
        self.state.write(room)
    }

    // One step more.
    fn act(&mut self, step: Step)
        requires { Ready step (length self.old.window) × (length self.old.steps < 128) }
        ensures { self.new ≡ does step self.old }
    {
        self.steps.push(u16::from(step));
        self.state = replay::moved(self.state, step);
    }

    // The first n keys of the window, each swapped below the keys to delete, with a Pop for each.
    fn bury_keys(&mut self, n: usize)
        requires { (2 * n ≤ length self.old.window) × (length self.old.steps + 2 * n ≤ 128) }
        ensures { self.new ≡ bury n 0 self.old }
    {
        for i in 0..n {
            let d = self.len() - 1 - i;
            self.act(Step::Swap(d as u8));
            self.act(Step::Pop);
        }
    }

    // So many pops.
    fn pop_keys(&mut self, n: usize)
        requires { (n ≤ length self.old.window) × (length self.old.steps + n ≤ 128) }
        ensures { self.new ≡ pops n self.old }
    {
        for _ in 0..n {
            self.act(Step::Pop);
        }
    }

    // Star-swap's steps behind those so far.
    fn route(&mut self, goal: &[u8])
        requires { Pair self.old.window goal.now × (length self.old.steps ≤ 98) }
        ensures { self.new.steps ≡ (routed goal.now self.old).steps }
    {
        let mut room = [0; 21];
        let n = self.write(&mut room);
        star_swap::route(&room[..n], goal, &mut self.steps);
    }

    // The place of the highest key of which there are more than `wanted` says.
    fn surplus_at(&self, wanted: &[u8; 64]) -> Option<usize>
        ensures place { result ≡ position (more_than wanted.now self.now.window) self.now.window }
        ensures window { Window self.now.window }
    {
        let mut room = [0; 21];
        let n = self.write(&mut room);
        let keys = &room[..n];
        let mut have = [0; 64];
        star_swap::count_into(keys, &mut have);
        keys.iter()
            .position(|&key| wanted[key as usize] < have[key as usize])
    }

    // The key at a place swapped up and popped.
    fn drop_at(&mut self, d: usize)
        requires { Fit self.old × (d < length self.old.window) }
        ensures { self.new ≡ drop_at d self.old }
    {
        if 0 < d {
            self.act(Step::Swap(d as u8));
        }
        self.act(Step::Pop);
    }

    // The first surplus key from the top goes, until none is left; nothing where it is out of reach. The goal alone, here and below, as in `tail_plan`.
    fn trim(&mut self, goal: &[u8], swap_max: usize) -> Option<()>
        requires { Fit self.old × Window goal.now }
        ensures trimmed { tried result self.new ≡ trimmed (length self.old.window) swap_max goal.now self.old }
        ensures fit { Fit self.new }
    {
        let mut wanted = [0; 64];
        star_swap::count_into(goal, &mut wanted);
        while let Some(d) = self.surplus_at(&wanted) {
            if beyond(d, swap_max) {
                return None;
            }
            self.drop_at(d);
        }
        Some(())
    }

    // A copy of the key at a place, if Dup and Swap reach it.
    fn copy_at(&mut self, d: usize, dup_max: usize, swap_max: usize) -> Option<()>
        requires { Room self.old × (d < length self.old.window) × (length self.old.window < 21) }
        ensures copied { tried result self.new ≡ copied dup_max swap_max d self.old }
        ensures room { Room self.new }
    {
        if d < dup_max {
            self.act(Step::Dup(d as u8));
            return Some(());
        }
        if dup_max == 0 || swap_max <= d {
            return None;
        }
        self.act(Step::Swap(d as u8));
        self.act(Step::Dup(0));
        Some(())
    }

    // The place of a key that is nearest the top.
    fn place_of(&self, key: u8) -> Option<usize>
        ensures { result ≡ position (λ k. key == k) self.now.window }
    {
        // Key by key: the one that was added last stands on top.
        for i in 0..self.len() {
            if key == self.state.get(i) {
                return Some(i);
            }
        }
        None
    }

    // One key more: a copy from the highest place, or the key made; nothing where the window is full.
    // A key is a byte of a list that C lends and no type of its own, so that it is below 64 is asked.
    fn add_key(&mut self, key: u8, rules: Rules<'_>) -> Option<()>
        requires { Room self.old × (key < 64) }
        ensures added { tried result self.new ≡ added (rules_of rules.entry) key self.old }
        ensures room { Room self.new }
    {
        if rules.cfg.max_len <= self.len() {
            return None;
        }
        match self.place_of(key) {
            Some(d) => self.copy_at(d, rules.cfg.dup_max, rules.cfg.swap_max),
            None => {
                self.act(made_step(rules.kinds, key));
                Some(())
            }
        }
    }

    // So many keys more. That the key is below 64 is asked as in `add_key`.
    fn add_times(&mut self, n: usize, key: u8, rules: Rules<'_>) -> Option<()>
        requires { Room self.old × (key < 64) }
        ensures added { tried result self.new ≡ added_times n (rules_of rules.entry) key self.old }
        ensures room { Room self.new }
    {
        for _ in 0..n {
            self.add_key(key, rules)?;
        }
        Some(())
    }

    // How many of a key are missing.
    #[tactic(auto, using(costs::specs::Laws::count_of_filter))]
    fn missing(&self, key: u8, want: usize) -> usize
        ensures { result ≡ want - count_of key self.now.window }
    {
        let mut room = [0; 21];
        let n = self.write(&mut room);
        want.saturating_sub(usize::from(costs::count_few(&room[..n], &key)))
    }

    // The missing keys in rising order.
    fn fill(&mut self, goal: &[u8], rules: Rules<'_>) -> Option<()>
        requires { Room self.old × Window goal.now }
        ensures filled { tried result self.new ≡ filled 64 0 (rules_of rules.entry) goal.now self.old }
        ensures room { Room self.new }
    {
        let mut wanted = [0; 64];
        star_swap::count_into(goal, &mut wanted);
        let mut next = next_wanted(goal, 0);
        while let Some(key) = next {
            let n = self.missing(key, wanted[key as usize] as usize);
            self.add_times(n, key, rules)?;
            next = next_wanted(goal, key + 1);
        }
        Some(())
    }

    // Star-swap finishes, or refuses.
    fn finish(&mut self, goal: &[u8], swap_max: usize) -> Option<()>
        requires { Room self.old × Window goal.now }
        ensures { option_map (λ x. self.new.steps) result ≡ steps_of (finished swap_max goal.now self.old) }
    {
        let mut room = [0; 21];
        let n = self.write(&mut room);
        if star_swap::not_routable(&room[..n], goal, swap_max) {
            return None;
        }
        self.route(goal);
        Some(())
    }

    // The steps over the first places of a list, the caller's as in `tail_plan`; how many.
    fn give(&self, steps: &mut [u16]) -> usize
        requires { 128 ≤ length steps.old }
        ensures given { Over self.now.steps result steps.old steps.new }
        ensures few { result ≤ 128 }
    {
        let count = self.steps.len();
        steps[..count].copy_from_slice(&self.steps);
        count
    }
}

// Whether the swaps do not reach a place.
#[tactic(auto, unfolding(crate::specs::Dup::within))]
fn beyond(d: usize, swap_max: usize) -> bool
    ensures { result ≡ not (within swap_max d) }
{
    d != 0 && swap_max <= d
}

// The step that makes a key.
#[tactic(auto, unfolding(crate::specs::Dup::made))]
fn made_step(kinds: &[u8], key: u8) -> Step
    requires { length kinds.now ≡ 64 }
    ensures { result ≡ made kinds.now key }
{
    if replay::is_immediate(kinds, key as usize) {
        Step::PushImm(key)
    } else {
        Step::LoadVal(key)
    }
}

// The least key of the goal from a key on.
fn next_wanted(goal: &[u8], from: u8) -> Option<u8>
    ensures { result ≡ reduce min (filter (λ key. leb from key) goal.now) }
{
    goal.iter().copied().filter(|&key| from <= key).min()
}

// Delete-tail's plan over the first places of a list, the caller's as in `tail_plan`; how many steps.
fn tail(start: &[u8], goal: &[u8], steps: &mut [u16]) -> usize
    requires { Window start.now × IsTail (length start.now) start.now goal.now × (128 ≤ length steps.old) }
    ensures given { Over (delete_tail start.now goal.now) result steps.old steps.new }
    ensures few { result ≤ 128 }
{
    let keep = goal.len();
    let dead = start.len() - keep;
    let bury = keep.min(dead);
    let mut work = Work::begin(start);
    work.bury_keys(bury);
    work.pop_keys(dead - bury);
    work.route(goal);
    work.give(steps)
}

// Refusal 10.
#[tactic(auto, unfolding(crate::specs::Tail::not_tail), using(crate::specs::TailCode::begins_by))]
fn not_tail(start: &[u8], goal: &[u8], swap_max: usize) -> bool
    ensures { result ≡ not_tail swap_max start.now goal.now }
{
    let prefix = start.starts_with(goal);
    let shorter = goal.len() < start.len();
    let far = swap_max < start.len();
    !prefix || !shorter || far
}

// The refusals, the lowest number first.
fn check(start: &[u8], goal: &[u8], swap_max: usize, places: usize) -> Result<(), Refusal>
    ensures { refusal_of result ≡ tail_refusal swap_max start.now goal.now places }
{
    star_swap::check_shared(start, goal, swap_max, places)?;
    if not_tail(start, goal, swap_max) {
        return Err(Refusal::Tail);
    }
    Ok(())
}

// As `delete_tail`, or why it is refused.
fn try_delete_tail(
    start: &[u8],
    goal: &[u8],
    swap_max: usize,
    steps: &mut [u16],
) -> Result<usize, Refusal>
    ensures { (written_of result, steps.new) ≡ deleted swap_max start.now goal.now steps.old }
{
    check(start, goal, swap_max, steps.len())?;
    let count = tail(start, goal, steps);
    Ok(count)
}

// Delete-tail's steps over the first places of the step list.
pub fn delete_tail(start: &[u8], goal: &[u8], swap_max: usize, steps: &mut [u16]) -> Written
    ensures { (result, steps.new) ≡ deleted swap_max start.now goal.now steps.old }
{
    Written::from(try_delete_tail(start, goal, swap_max, steps))
}

// Delete-tail as a builder of a window that the planner has accepted: how many steps of the list its plan is, if it has one. The list is lent,
// since a moved `ArrayVec` of 128 steps took the planner above its bar of speed.
// A caller's list may be longer, and it may have no rules and prices: an array and replay's `Task` would ask more of it.
pub fn tail_plan(start: &[u8], goal: &[u8], swap_max: usize, steps: &mut [u16]) -> Option<usize>
    requires { Window start.now × Window goal.now × (128 ≤ length steps.old) }
    ensures { Built (tail_plan swap_max start.now goal.now) result steps.old steps.new }
{
    if not_tail(start, goal, swap_max) {
        return None;
    }
    Some(tail(start, goal, steps))
}

// Dup-and-star, in the same way; it reads no prices, which a `Task` would ask for.
pub fn dup_and_star(start: &[u8], goal: &[u8], rules: Rules<'_>, steps: &mut [u16]) -> Option<usize>
    requires { Window start.now × Window goal.now × (128 ≤ length steps.old) }
    ensures { Built (steps_of (dup_and_star (rules_of rules.entry) start.now goal.now)) result steps.old steps.new }
{
    let mut work = Work::begin(start);
    work.trim(goal, rules.cfg.swap_max)?;
    work.fill(goal, rules)?;
    work.finish(goal, rules.cfg.swap_max)?;
    Some(work.give(steps))
}
