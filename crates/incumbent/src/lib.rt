// The bound before the search: the flush cost, and the builders' plans.
#![tactic(auto)]

mod plans;

ghost use Rattle.std.specs.Prelude.{◌≡◌, ◌≤◌, IfSome, length, take};
ghost use Rattle.std.specs.Option.{option_map};
ghost use Rattle.builders.specs.Tail.{tail_plan};
ghost use Rattle.builders.specs.Dup.{dup_and_star};
ghost use Rattle.builders.specs.Draft.{steps_of};
ghost use Rattle.incumbent.specs.Flush.{flush_cost};
ghost use Rattle.incumbent.specs.Hand.{origin_number, offered, task_hand, held_of, over_list};

use costs::{Cost, Step};
pub use plans::{Origin, Plan};
use replay::Task;

// The bound before the search, and the plan in hand, if there is one: its cost is the bound.
#[derive(Clone, Copy, PartialEq, Eq)]
pub struct Hand {
    pub bound: Cost,
    pub plan: Option<Plan>,
}

// The number of an origin: 1, 2.
impl From<Origin> for u32 {
    ghost from_gives = { λ origin number. number ≡ origin_number origin };

    fn from(origin: Origin) -> u32 {
        match origin {
            Origin::DeleteTail => 1,
            Origin::DupAndStar => 2,
        }
    }
}

// The flush cost.
#[tactic(auto, using(crate::specs::Laws::suffix_is, crate::specs::Laws::suffix_low))]
pub fn flush_cost(prices: &[u32], start: &[u8], goal: &[u8]) -> Cost
    ensures { result ≡ flush_cost prices.now start.now goal.now }
{
    let same = successors::common_suffix(start, goal);
    let popped = &start[..start.len() - same];
    let made = &goal[..goal.len() - same];
    let pops = costs::sum_of_prices(prices, Cost::zero(), popped, |_| Some(Step::Pop));
    costs::sum_of_prices(prices, pops, made, |&key| Some(Step::PushImm(key)))
}

// A builder's plan, in a list of its own, becomes the plan in hand if it costs no more than the bound so far.
fn offer(
    hand: Hand,
    origin: Origin,
    built: Option<usize>,
    tried: &[u16; 128],
    prices: &[u32],
    steps: &mut [u16; 128],
) -> Hand
    requires { IfSome built (λ n. n ≤ 128) }
    ensures { held_of result steps.new ≡ offered prices.now (origin_number origin) (option_map (λ n. take n tried.now) built) (held_of hand steps.old) }
{
    let Some(count) = built else {
        return hand;
    };
    let cost = costs::cost_for_steps(&tried[..count], prices);
    if !cost.no_more(hand.bound) {
        return hand;
    }
    steps[..count].copy_from_slice(&tried[..count]);
    Hand {
        bound: cost,
        plan: Some(Plan { origin, count }),
    }
}

// The bound and the plan in hand, which stands in a list that is free to change. The builders write into lists, since a moved `ArrayVec` of 128
// steps took the planner above its bar of speed.
fn best(task: &Task<'_>, held: &mut [u16; 128]) -> Hand
    ensures { held_of result held.new ≡ task_hand task.now }
{
    let flush = Hand {
        bound: flush_cost(task.prices, task.start, task.goal),
        plan: None,
    };
    let mut tried = [0; 128];
    let tail = builders::tail_plan(task.start, task.goal, task.rules.cfg.swap_max, &mut tried);
    let hand = offer(flush, Origin::DeleteTail, tail, &tried, task.prices, held);
    let dup = builders::dup_and_star(task.start, task.goal, task.rules, &mut tried);
    offer(hand, Origin::DupAndStar, dup, &tried, task.prices, held)
}

// The bound before the search, and the plan in hand over the first places of a list.
// The list may be longer than 128, so it is no array: that would ask more of callers.
pub fn in_hand(task: &Task<'_>, steps: &mut [u16]) -> Hand
    requires { 128 ≤ length steps.old }
    ensures held { held_of result steps.new ≡ task_hand task.now }
    ensures list { steps.new ≡ over_list (task_hand task.now).plan steps.old }
{
    let mut held = [0; 128];
    let hand = best(task, &mut held);
    let Some(plan) = hand.plan else {
        return hand;
    };
    steps[..plan.count].copy_from_slice(&held[..plan.count]);
    hand
}
