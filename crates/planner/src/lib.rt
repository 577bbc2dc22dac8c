// The planner: the model plan of a question, and its pass mark.
#![tactic(auto)]

ghost use Rattle.std.specs.Prelude.{◌≡◌, ◌||◌, ◌+◌, ◌≤◌, max, ltb, length};
ghost use Rattle.costs.specs.Refusal.{number_of, refusal_of};
ghost use Rattle.replay.specs.Machine.{plain_rules, above, rules_of};
ghost use Rattle.replay.specs.Rows.{given_by};
ghost use Rattle.replay.specs.Beneath.{window_above, narrowed};
ghost use Rattle.incumbent.specs.Hand.{held_of};
ghost use Rattle.algebra.specs.GasBytes.{«gas_bytes»};
ghost use Rattle.astar.specs.Planner.{searched};
ghost use Rattle.problem.specs.Problem.{problem_of};
ghost use Rattle.planner.specs.Refusal.{asked, allowances, lent, allowance_fault, over_length, too_long, short_lists, plan_refusal};
ghost use Rattle.planner.specs.Accepted.{Accepted};
ghost use Rattle.planner.specs.Planned.{question_of, listed, bare_of, refused, plan_held, answered, given, planned_for, WorkKept};
ghost use Rattle.planner.specs.Given.{source_number, ending_number, answer_of, answered_of, Gives, start_given, task_asked};
ghost use Rattle.run.specs.View.{allowance};

use costs::{Cost, Refusal};
use incumbent::{Hand, Origin};
use offer::Bound;
use replay::{Given, Rules, SearchCfg, Task};
pub use run::Allowances;

// What the planner answers: the number of a refusal or 0, document 01's nine fields, and the plan's highest window. Numbers,
// since C gets it.
#[repr(C)]
#[derive(Clone, Copy, PartialEq, Eq)]
pub struct Answer {
    pub refusal: u32,
    pub found: u32,
    pub step_count: usize,
    pub plan_gas: u32,
    pub plan_bytes: u32,
    pub ceiling_gas: u32,
    pub ceiling_bytes: u32,
    pub origin: u32,
    pub ending: u32,
    pub expansions: usize,
    pub highest: usize,
}

// Whose plan it is: nobody's where no step is needed, a builder's, or the search's.
#[derive(Clone, Copy, PartialEq, Eq)]
pub enum Source {
    NoSteps,
    Builder(Origin),
    Search,
}

// Why a planning ended: at the start, with no expansion allowed, or as the search did.
#[derive(Clone, Copy, PartialEq, Eq)]
pub enum Ending {
    AtGoal,
    NoExpansion,
    Searched(run::Ending),
}

// The plan over the first places of the step list.
#[derive(Clone, Copy, PartialEq, Eq)]
pub struct ModelPlan {
    pub source: Source,
    pub count: usize,
    pub cost: Cost,
    pub ceiling: Cost,
    pub highest: usize,
}

// What an accepted planning comes to.
#[derive(Clone, Copy, PartialEq, Eq)]
pub struct Planned {
    pub plan: Option<ModelPlan>,
    pub ending: Ending,
    pub expansions: usize,
}

impl From<Source> for u32 {
    ghost from_gives = { λ source number. number ≡ source_number source };

    fn from(source: Source) -> u32 {
        match source {
            Source::NoSteps => 0,
            Source::Builder(origin) => u32::from(origin),
            Source::Search => 3,
        }
    }
}

impl From<Ending> for u32 {
    ghost from_gives = { λ ending number. number ≡ ending_number ending };

    fn from(ending: Ending) -> u32 {
        match ending {
            Ending::AtGoal => 0,
            Ending::NoExpansion => 1,
            Ending::Searched(ending) => u32::from(ending),
        }
    }
}

impl Answer {
    // Zeros but for these.
    fn bare(refusal: u32, ending: u32, expansions: usize) -> Answer
        ensures { result ≡ bare_of refusal 0 ending expansions 0 }
    {
        Answer {
            refusal,
            found: 0,
            step_count: 0,
            plan_gas: 0,
            plan_bytes: 0,
            ceiling_gas: 0,
            ceiling_bytes: 0,
            origin: 0,
            ending,
            expansions,
            highest: 0,
        }
    }
}

impl From<Planned> for Answer {
    ghost from_gives = { λ planned answer. answer ≡ answer_of planned };

    fn from(planned: Planned) -> Answer {
        let bare = Answer::bare(0, u32::from(planned.ending), planned.expansions);
        let Some(plan) = planned.plan else {
            return bare;
        };
        Answer {
            found: 1,
            step_count: plan.count,
            plan_gas: plan.cost.gas,
            plan_bytes: plan.cost.bytes,
            ceiling_gas: plan.ceiling.gas,
            ceiling_bytes: plan.ceiling.bytes,
            origin: u32::from(plan.source),
            highest: plan.highest,
            ..bare
        }
    }
}

// A refusal: zeros beside the number.
impl From<Refusal> for Answer {
    ghost from_gives = { λ refusal answer. answer ≡ refused (number_of refusal) };

    fn from(refusal: Refusal) -> Answer {
        Answer::bare(refusal.number(), 0, 0)
    }
}

impl From<Result<Planned, Refusal>> for Answer {
    ghost from_gives = { λ outcome answer. answer ≡ answered_of outcome };

    fn from(outcome: Result<Planned, Refusal>) -> Answer {
        match outcome {
            Ok(planned) => Answer::from(planned),
            Err(refusal) => Answer::from(refusal),
        }
    }
}

// The lengths of the lent lists.
#[derive(Clone, Copy)]
pub struct Lengths {
    pub steps: usize,
    pub nodes: usize,
    pub heads: usize,
    pub list: usize,
}

// Row 3.
#[tactic(auto, unfolding(crate::specs::Refusal::allowance_fault))]
fn allowance_fault(a: Allowances) -> bool
    ensures { result ≡ allowance_fault (allowances a.max_expansions a.states_without a.states_with) }
{
    65536 < a.max_expansions || 65536 < a.states_without || 65536 < a.states_with
}

// Row 6, of a window of n keys: it reads the window that the items beneath leave.
#[tactic(auto, unfolding(crate::specs::Refusal::over_length))]
fn over_length(given: Given<'_>, n: usize) -> bool
    ensures { result ≡ over_length given.entry.cfg.swap_max (window_above given.entry.cfg.max_len given.entry.beneath) n }
{
    let narrow = replay::narrowed(given.cfg, given.beneath);
    given.cfg.swap_max < n || narrow.max_len < n
}

// The same of the start and the goal.
fn too_long(given: Given<'_>, start: &[u8], goal: &[u8]) -> bool
    ensures { result ≡ (too_long (narrowed (given_by given.entry)) start.now || too_long (narrowed (given_by given.entry)) goal.now) }
{
    over_length(given, start.len()) || over_length(given, goal.len())
}

// Fewer entries than the larger state allowance plus 50.
fn fewer(n: usize, a: Allowances) -> bool
    ensures { result ≡ ltb n (max a.states_without a.states_with + 50) }
{
    let states = a.states_without.max(a.states_with);
    n.checked_sub(50).is_none_or(|left| left < states)
}

// Row 7.
#[tactic(auto, unfolding(crate::specs::Refusal::short_lists))]
fn short_lists(a: Allowances, l: Lengths) -> bool
    ensures { result ≡ short_lists (allowances a.max_expansions a.states_without a.states_with) (lent l.steps l.nodes l.heads l.list) }
{
    fewer(l.nodes / 8, a)
        || fewer(l.heads, a)
        || fewer(l.list / 4, a)
        || l.steps < 128_usize.max(a.max_expansions)
}

// Refusals 1 to 7, and 12 before 6.
fn check(
    start: &[u8],
    goal: &[u8],
    given: Given<'_>,
    a: Allowances,
    prices: &[u32],
    l: Lengths,
) -> Result<(), Refusal>
    ensures { refusal_of result ≡ plan_refusal
        (asked (given_by given.entry) prices.now start.now goal.now (allowances a.max_expansions a.states_without a.states_with))
        (lent l.steps l.nodes l.heads l.list) }
{
    given.check(allowance_fault(a))?;
    if costs::prices_fault(prices) {
        return Err(Refusal::Table);
    }
    given.check_keys(start, goal, too_long(given, start, goal))?;
    if short_lists(a, l) {
        return Err(Refusal::ShortList);
    }
    Ok(())
}

// The start, of n keys, is the goal.
fn no_steps(n: usize) -> Planned
    ensures { answer_of result ≡ start_given n }
{
    Planned {
        plan: Some(ModelPlan {
            source: Source::NoSteps,
            count: 0,
            cost: Cost::zero(),
            ceiling: Cost::zero(),
            highest: n,
        }),
        ending: Ending::AtGoal,
        expansions: 0,
    }
}

// The builders' plan, if there is one, over the first places of the step list.
// The hand and its steps are apart, since a moved `ArrayVec` of 128 steps took the planner above its bar of speed.
// The caller's step list may be longer than 128, so it is no array.
fn give_held(hand: Hand, held: &[u16; 128], task: &Task<'_>, steps: &mut [u16]) -> Option<ModelPlan>
    requires { 128 ≤ length steps.old }
    ensures { Gives (rules_of task.now.rules) task.now.start.now (plan_held (held_of hand held.now)) result steps.old steps.new }
{
    let plan = hand.plan?;
    let codes = &held[..plan.count];
    steps[..plan.count].copy_from_slice(codes);
    Some(ModelPlan {
        source: Source::Builder(plan.origin),
        count: plan.count,
        cost: hand.bound,
        ceiling: hand.bound,
        highest: task.rules.highest(task.start, codes),
    })
}

// The search, and the builders' plan where it finds none.
// The hand and its steps are apart, as in `give_held`. The lists that are lent stay four parameters, here and below: the check lends no two
// fields of a struct behind a reference at once.
fn with_search(
    nodes: &mut [u64],
    heads: &mut [u64],
    list: &mut [u64],
    steps: &mut [u16],
    task: &Task<'_>,
    a: Allowances,
    hand: Hand,
    held: &[u16; 128],
) -> Planned
    requires { Accepted (task_asked task.now a) (lent (length steps.old) (length nodes.old) (length heads.old) (length list.old)) }
    ensures { (answer_of result, steps.new) ≡ given (rules_of task.now.rules) task.now.start.now
        (searched «gas_bytes» (problem_of (question_of (task_asked task.now a)) task.now.start.now) (listed task.now.prices.now) 50
        (held_of hand held.now).bound (plan_held (held_of hand held.now)) (allowance a))
        steps.old }
{
    let bound = Bound {
        cost: u64::from(hand.bound),
        have: hand.plan.is_some(),
    };
    let came = solve::search_from(nodes, heads, list, steps, task, a, bound);
    let plan = match came.plan {
        Some(plan) => Some(ModelPlan {
            source: Source::Search,
            count: plan.steps,
            cost: plan.cost,
            ceiling: plan.ceiling,
            highest: task.rules.highest(task.start, &steps[..plan.steps]),
        }),
        None => give_held(hand, held, task, steps),
    };
    Planned {
        plan,
        ending: Ending::Searched(came.ending),
        expansions: came.expansions,
    }
}

// An accepted planning: the start is the goal, or no expansion is allowed, or the search.
fn accepted_plan(
    nodes: &mut [u64],
    heads: &mut [u64],
    list: &mut [u64],
    steps: &mut [u16],
    task: &Task<'_>,
    a: Allowances,
) -> Planned
    requires { Accepted (task_asked task.now a) (lent (length steps.old) (length nodes.old) (length heads.old) (length list.old)) }
    ensures { (answer_of result, steps.new) ≡ given (rules_of task.now.rules) task.now.start.now (answered (task_asked task.now a)) steps.old }
{
    if task.start == task.goal {
        return no_steps(task.start.len());
    }
    let mut held = [0; 128];
    let hand = incumbent::in_hand(task, &mut held);
    if a.max_expansions == 0 {
        return Planned {
            plan: give_held(hand, &held, task, steps),
            ending: Ending::NoExpansion,
            expansions: 0,
        };
    }
    with_search(nodes, heads, list, steps, task, a, hand, &held)
}

// As `plan`, or why it is refused.
fn try_plan<'a>(
    start: &'a [u8],
    goal: &'a [u8],
    given: Given<'a>,
    a: Allowances,
    prices: &'a [u32],
    steps: &mut [u16],
    nodes: &mut [u64],
    heads: &mut [u64],
    list: &mut [u64],
) -> Result<Planned, Refusal>
    ensures steps_after { (answered_of result, steps.new) ≡ planned_for
        (asked (given_by given.entry) prices.now start.now goal.now (allowances a.max_expansions a.states_without a.states_with))
        (lent (length steps.old) (length nodes.old) (length heads.old) (length list.old))
        steps.old }
    ensures work_kept { WorkKept (refusal_of result) nodes.old nodes.new × WorkKept (refusal_of result) heads.old heads.new × WorkKept (refusal_of result) list.old list.new }
{
    let lent = Lengths {
        steps: steps.len(),
        nodes: nodes.len(),
        heads: heads.len(),
        list: list.len(),
    };
    check(start, goal, given, a, prices, lent)?;
    let task = Task {
        start,
        goal,
        rules: given.narrowed(),
        prices,
    };
    Ok(accepted_plan(nodes, heads, list, steps, &task, a))
}

// The model plan of a question, over the first places of the step list, and its pass mark; or the number that refuses it. It is worked out
// with the rules narrowed by the items beneath (replay's law `may_grow`).
// The numbers of document 01's call, one by one, as C passes them.
pub fn plan(
    start: &[u8],
    goal: &[u8],
    dup_max: usize,
    swap_max: usize,
    max_len: usize,
    beneath: usize,
    max_expansions: usize,
    states_without: usize,
    states_with: usize,
    kinds: &[u8],
    prices: &[u32],
    steps: &mut [u16],
    nodes: &mut [u64],
    heads: &mut [u64],
    list: &mut [u64],
) -> Answer
    ensures steps_after { (result, steps.new) ≡ planned_for
        (asked (above beneath (plain_rules dup_max swap_max max_len kinds.now)) prices.now start.now goal.now (allowances max_expansions states_without states_with))
        (lent (length steps.old) (length nodes.old) (length heads.old) (length list.old))
        steps.old }
    ensures work_kept { WorkKept result.refusal nodes.old nodes.new × WorkKept result.refusal heads.old heads.new × WorkKept result.refusal list.old list.new }
{
    let cfg = SearchCfg {
        dup_max,
        swap_max,
        max_len,
    };
    let given = Given {
        cfg,
        beneath,
        kinds,
    };
    let a = Allowances {
        max_expansions,
        states_without,
        states_with,
    };
    Answer::from(try_plan(start, goal, given, a, prices, steps, nodes, heads, list))
}
