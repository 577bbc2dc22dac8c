// Offering a successor to the node list and the open list, and the plan in hand. Costs are numbers, gas * 2^32 + bytes.
// The lent lists stand apart: a struct of `&mut`s was tried in lists, and its contracts had to say more.
#![tactic(auto)]

ghost use Rattle.std.specs.Prelude.{◌≡◌, ℕ, ◌+◌, ◌-◌, ◌*◌, ◌<◌, ◌≤◌, IfSome, length};
ghost use Rattle.std.specs.Option.{option_map};
ghost use Rattle.costs.specs.Packed.{cost_of};
ghost use Rattle.algebra.specs.GasBytes.{«gas_bytes»};
ghost use Rattle.astar.specs.Search.{cut as cuts, «record_goal» as recorded, better};
ghost use Rattle.lists.specs.View.{node_is, node_at, Kept};
ghost use Rattle.offer.specs.Rules.{bare};
ghost use Rattle.offer.specs.View.{sum, hand_of, work_of, Inside, node_for, Admitted, HasRoom, Now, offered};

use costs::{Cost, Step};
use heap::Entry;
use lists::Node;
use window::PackedState;

// A successor: its state, the step's price, the state's estimate, and the step.
#[derive(Clone, Copy, PartialEq, Eq)]
pub struct Successor {
    pub state: PackedState,
    pub price: u64,
    pub est: u64,
    pub step: Step,
}

// The bound, and whether a plan is in hand: it stands with one and without one, so it is no Option.
#[derive(Clone, Copy, PartialEq, Eq)]
pub struct Bound {
    pub cost: u64,
    pub have: bool,
}

// The bound, and the cost of the last goal recorded.
#[derive(Clone, Copy, PartialEq, Eq)]
pub struct Held {
    pub bound: Bound,
    pub found: Option<u64>,
}

// How many nodes and open entries there are.
#[derive(Clone, Copy, PartialEq, Eq)]
pub struct Sizes {
    pub nodes: usize,
    pub list: usize,
}

// A state that is expanded, and its cost.
#[derive(Clone, Copy, PartialEq, Eq)]
pub struct Origin {
    pub state: PackedState,
    pub cost: u64,
}

// The sum of two costs: gas and bytes each stop at the greatest u32.
#[tactic(auto, unfolding(costs::specs::Packed::cost_of, costs::specs::Cost::plus, astar::specs::Pairs::sat))]
pub fn add(a: u64, b: u64) -> u64
    ensures { cost_of result ≡ sum (cost_of a) (cost_of b) }
{
    u64::from(Cost::from(a).saturating_add(Cost::from(b)))
}

// Whether f is cut off: it cannot improve on a plan in hand, or without one is above the bound.
#[tactic(auto, unfolding(astar::specs::Search::cut), using(lists::proofs::Queue::cost_le, crate::proofs::Laws::cost_lt))]
pub fn cut(held: Held, f: u64) -> bool
    ensures { result ≡ cuts «gas_bytes» (hand_of held) (cost_of f) }
{
    if held.bound.have {
        held.bound.cost <= f
    } else {
        held.bound.cost < f
    }
}

// A goal is drawn at g: it is recorded unless a plan in hand is as cheap.
#[tactic(auto, unfolding(astar::specs::Search::record_goal), using(crate::proofs::Laws::cost_lt))]
pub fn goal_drawn(held: Held, g: u64) -> Held
    ensures { hand_of result ≡ recorded «gas_bytes» (cost_of g) (hand_of held) }
{
    if held.bound.have && held.bound.cost <= g {
        return held;
    }
    Held {
        bound: Bound {
            cost: g,
            have: true,
        },
        found: Some(g),
    }
}

// Whether the cost g is below that of the node found, or there is none.
#[tactic(auto, unfolding(astar::specs::Search::better), using(crate::proofs::Laws::cost_lt))]
fn cheaper(nodes: &[u64], at: Option<usize>, g: u64) -> bool
    requires { Inside nodes.now at }
    ensures { result ≡ better «gas_bytes» (bare 0 0) (cost_of g) (option_map (node_at nodes.now) at) }
{
    match at {
        Some(i) => g < nodes::cost(nodes, i),
        None => true,
    }
}

// The node of the successor x of p at cost g.
fn node_for(p: Origin, x: Successor, g: u64) -> Node
    ensures result_value { node_is result ≡ node_for p x g }
    ensures state_value { result.state ≡ x.state }
{
    Node {
        state: x.state,
        cost: g,
        parent: Some((p.state, x.step)),
    }
}

// Stores the successor x of p at cost g if it is new or strictly cheaper: the number of nodes then.
pub fn admit(
    nodes: &mut [u64],
    heads: &mut [u64],
    n: usize,
    p: Origin,
    x: Successor,
    g: u64,
) -> Option<usize>
    requires kept { Kept nodes.old heads.old n }
    requires n_in_bounds { n * 8 + 8 ≤ length nodes.old }
    ensures { Admitted nodes.old n (node_for p x g) nodes.new heads.new result }
{
    let at = lists::find(nodes, heads, n, x.state);
    if !cheaper(nodes, at, g) {
        return None;
    }
    Some(lists::store(nodes, heads, n, at, node_for(p, x, g)))
}

// Offers the successor x of p: it is stored where neither the cut nor a node as cheap stands against it.
pub fn offer(
    nodes: &mut [u64],
    heads: &mut [u64],
    list: &mut [u64],
    sizes: Sizes,
    held: Held,
    p: Origin,
    x: Successor,
) -> Sizes
    requires { HasRoom 1 nodes.old heads.old list.old sizes }
    ensures { Now 1 sizes (offered held p x (work_of nodes.old list.old sizes)) nodes.new heads.new list.new result }
{
    let g = add(p.cost, x.price);
    let f = add(g, x.est);
    if cut(held, f) {
        return sizes;
    }
    let Some(more) = admit(nodes, heads, sizes.nodes, p, x, g) else {
        return sizes;
    };
    let state = x.state;
    lists::push(list, sizes.list, Entry { f, g, state });
    Sizes {
        nodes: more,
        list: sizes.list + 1,
    }
}
