// Demand 3 as a caller meets it: one question planned twice, under allowances of which none is lower the second time.
#![tactic(auto)]

ghost use Rattle.std.specs.Prelude.{◌≡◌, ◌≤◌};
ghost use Rattle.planner.specs.Steady.{Demand3};

use planner::{Allowances, Answer};

// The two answers.
#[derive(Clone, Copy, PartialEq, Eq)]
pub struct Twice {
    pub first: Answer,
    pub second: Answer,
}

// Plans one question, above so many items, under two sets of allowances, each time with step and work lists of its own, of any lengths and
// contents. Where both plannings are accepted and no allowance is lower the second time, the pass mark is no higher, a plan stays a plan and
// costs no more than its own ceiling, and an answer that ended by itself is the same in every field and step.
// The numbers of document 01's call, one by one, as C passes them.
pub fn plan_twice(
    start: &[u8],
    goal: &[u8],
    dup_max: usize,
    swap_max: usize,
    max_len: usize,
    beneath: usize,
    kinds: &[u8],
    prices: &[u32],
    low: Allowances,
    low_steps: &mut [u16],
    low_nodes: &mut [u64],
    low_heads: &mut [u64],
    low_list: &mut [u64],
    high: Allowances,
    high_steps: &mut [u16],
    high_nodes: &mut [u64],
    high_heads: &mut [u64],
    high_list: &mut [u64],
) -> Twice
    ensures { low.max_expansions ≤ high.max_expansions → low.states_without ≤ high.states_without → low.states_with ≤ high.states_with →
        result.first.refusal ≡ 0 → result.second.refusal ≡ 0 → Demand3 result.first low_steps.new result.second high_steps.new }
{
    let first = planner::plan(
        start,
        goal,
        dup_max,
        swap_max,
        max_len,
        beneath,
        low.max_expansions,
        low.states_without,
        low.states_with,
        kinds,
        prices,
        low_steps,
        low_nodes,
        low_heads,
        low_list,
    );
    let second = planner::plan(
        start,
        goal,
        dup_max,
        swap_max,
        max_len,
        beneath,
        high.max_expansions,
        high.states_without,
        high.states_with,
        kinds,
        prices,
        high_steps,
        high_nodes,
        high_heads,
        high_list,
    );
    Twice { first, second }
}
