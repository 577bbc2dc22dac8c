// A whole search: begin, run, read the plan back, and what a caller gets.
#![tactic(auto)]

ghost use Rattle.std.specs.Prelude.{◌≡◌, None, ◌≤◌, ◌<◌, length};
ghost use Rattle.costs.specs.Packed.{cost_of};
ghost use Rattle.window.specs.State.{whole};
ghost use Rattle.window.specs.Keys.{Window};
ghost use Rattle.lists.specs.View.{nodes_of, Kept};
ghost use Rattle.search.specs.View.{posed, IsWindow};
ghost use Rattle.run.specs.View.{Roomy, Ran};
ghost use Rattle.table.specs.Table.{Accepted};
ghost use Rattle.solve.specs.View.{estimate_in, first_of, Begun, PlanRead, Searched, SearchedFor, StartFits, question_of};

use costs::Cost;
use heap::Entry;
use lists::Node;
use offer::{Bound, Held, Sizes};
use replay::Task;
use run::{Allowances, Ask, Ending, Left};
use search::Question;
use table::Table;
use window::PackedState;

// A plan that the search found: how many steps of the step list it is, its cost, and its ceiling.
#[derive(Clone, Copy, PartialEq, Eq)]
pub struct Plan {
    pub steps: usize,
    pub cost: Cost,
    pub ceiling: Cost,
}

// What a search came to: the plan, if it found one, the ending and the expansions.
#[derive(Clone, Copy, PartialEq, Eq)]
pub struct Outcome {
    pub plan: Option<Plan>,
    pub ending: Ending,
    pub expansions: usize,
}

// The estimate of a state, as a number.
fn estimate(question: &Question<'_>, state: PackedState) -> u64
    requires { Window state }
    ensures { cost_of result ≡ estimate_in (posed question.now) (whole state) }
{
    let mut have = [0; 64];
    let gas = question.standing(state, &mut have);
    u64::from(Cost { gas, bytes: 0 })
}

// The first search, whatever the lists held before.
// The lists stay apart, here and below: the check lends no two fields of a struct behind a reference at once.
pub fn begin(
    nodes: &mut [u64],
    heads: &mut [u64],
    list: &mut [u64],
    question: &Question<'_>,
    ask: Ask,
) -> Sizes
    requires heads_nonzero { 0 < length heads.old }
    requires in_bounds { 8 ≤ length nodes.old }
    requires in_bounds_2 { 4 ≤ length list.old }
    requires window { Window ask.start }
    ensures { Begun (posed question.now) ask nodes.new heads.new list.new result }
{
    let state = ask.start;
    let f = estimate(question, state);
    let node = Node {
        state,
        cost: 0,
        parent: None,
    };
    let nodes = lists::store(nodes, heads, 0, None, node);
    lists::push(list, 0, Entry { f, g: 0, state });
    Sizes { nodes, list: 1 }
}

// Begins and runs.
pub fn go(
    nodes: &mut [u64],
    heads: &mut [u64],
    list: &mut [u64],
    question: &Question<'_>,
    ask: Ask,
    limits: Allowances,
    bound: Bound,
) -> Left
    requires heads_nonzero { 0 < length heads.old }
    requires roomy { Roomy limits nodes.old list.old }
    requires window { IsWindow (posed question.now) (whole ask.start) }
    ensures { Ran (posed question.now) ask limits (first_of (posed question.now) ask (cost_of bound.cost) bound.have) nodes.new heads.new result }
{
    let sizes = begin(nodes, heads, list, question, ask);
    let first = Held { bound, found: None };
    run::run(nodes, heads, list, question, sizes, first, ask, limits)
}

// The plan of the goal that was recorded last, if there is one: its steps over the first places of the step list.
fn read_plan(
    nodes: &[u64],
    heads: &[u64],
    steps: &mut [u16],
    prices: &[u32],
    ask: Ask,
    left: Left,
) -> Option<Plan>
    requires kept { Kept nodes.now heads.now left.nodes }
    requires count_in_bounds { left.count ≤ length steps.old }
    ensures { PlanRead ask prices.now (nodes_of nodes.now left.nodes) left.count steps.old steps.new left.held.found result }
{
    let ceiling = Cost::from(left.held.found?);
    let steps_read = back::reconstruct_steps(
        nodes, heads, steps, left.nodes, ask.start, ask.goal, left.count,
    )?;
    Some(Plan {
        steps: steps_read,
        cost: costs::cost_for_steps(&steps[..steps_read], prices),
        ceiling,
    })
}

// The search of a question between two states.
pub fn search_for(
    nodes: &mut [u64],
    heads: &mut [u64],
    list: &mut [u64],
    steps: &mut [u16],
    question: &Question<'_>,
    ask: Ask,
    limits: Allowances,
    bound: Bound,
) -> Outcome
    requires heads_nonzero { 0 < length heads.old }
    requires roomy { Roomy limits nodes.old list.old }
    requires window { IsWindow (posed question.now) (whole ask.start) }
    requires most_in_bounds { limits.max_expansions ≤ length steps.old }
    requires most_bound { limits.max_expansions ≤ 65536 }
    ensures { SearchedFor (posed question.now) ask limits (cost_of bound.cost) bound.have result steps.old steps.new }
{
    let left = go(nodes, heads, list, question, ask, limits, bound);
    Outcome {
        plan: read_plan(nodes, heads, steps, question.asked.prices, ask, left),
        ending: left.ending,
        expansions: left.count,
    }
}

// The search from a start window to a goal window, with the bound that the builders gave. The plan stands in the first places of the step
// list; the work lists may hold anything.
pub fn search_from(
    nodes: &mut [u64],
    heads: &mut [u64],
    list: &mut [u64],
    steps: &mut [u16],
    task: &Task<'_>,
    limits: Allowances,
    bound: Bound,
) -> Outcome
    requires heads_nonzero { 0 < length heads.old }
    requires roomy { Roomy limits nodes.old list.old }
    requires accepted { Accepted task.now.rules.cfg task.now.rules.kinds.now task.now.prices.now task.now.goal.now }
    requires start_fits { StartFits (question_of task.now) task.now.start.now }
    requires most_in_bounds { limits.max_expansions ≤ length steps.old }
    requires most_bound { limits.max_expansions ≤ 65536 }
    ensures { Searched (question_of task.now) task.now.start.now limits (cost_of bound.cost) bound.have result steps.old steps.new }
{
    let table = Table::new(task.goal, task.prices, task.rules.cfg);
    let question = table.question(task.goal, task.rules, task.prices);
    let ask = Ask {
        start: PackedState::from_ids(task.start),
        goal: PackedState::from_ids(task.goal),
    };
    search_for(nodes, heads, list, steps, &question, ask, limits, bound)
}
