// Reads the plan of the goal back from the node list into a lent list of step codes: counts the steps, then writes them from the end.
// The lent lists stand apart: a struct of `&mut`s was tried in lists, and its contracts had to say more.
#![tactic(auto)]

ghost use Rattle.std.specs.Prelude.{◌≡◌, ℕ, ◌≤◌, Some, length};
ghost use Rattle.astar.specs.Search.{find as found, parent_in};
ghost use Rattle.window.specs.State.{whole};
ghost use Rattle.window.specs.declared.PackedState.{PackedState};
ghost use Rattle.lists.specs.View.{parent_is, nodes_of, Kept};
ghost use Rattle.back.specs.Back.{HasSteps, plan, Counted, ReadBack};

use costs::Step;
use window::PackedState;

// How the state was reached: none of the start, and of a state that is not known.
#[tactic(auto, unfolding(astar::specs::Search::parent_in))]
fn parent(nodes: &[u64], heads: &[u64], n: usize, state: PackedState) -> Option<(PackedState, Step)>
    requires { Kept nodes.now heads.now n }
    ensures { parent_is result ≡ parent_in (found (whole state) (nodes_of nodes.now n)) }
{
    lists::recall(nodes, heads, n, state)?.parent
}

// How many steps the plan has, if it has at most `most`.
pub fn count_steps(
    nodes: &[u64],
    heads: &[u64],
    n: usize,
    start: PackedState,
    goal: PackedState,
    most: usize,
) -> Option<usize>
    requires { Kept nodes.now heads.now n }
    ensures { Counted start goal most (nodes_of nodes.now n) result }
{
    let mut at = goal;
    for k in 0..=most {
        if at.same(start) {
            return Some(k);
        }
        let (up, _) = parent(nodes, heads, n, at)?;
        at = up;
    }
    None
}

// Writes the steps of the plan over a list of just so many, from the last to the first.
fn write_steps(nodes: &[u64], heads: &[u64], n: usize, goal: PackedState, steps: &mut [u16])
    requires kept { Kept nodes.now heads.now n }
    requires counted { (start : PackedState) × ((most : ℕ) × HasSteps start goal most (nodes_of nodes.now n) (length steps.old)) }
    ensures { (start : PackedState) → (most : ℕ) → HasSteps start goal most (nodes_of nodes.now n) (length steps.old)
        → plan start goal most (nodes_of nodes.now n) ≡ Some steps.new }
{
    let mut at = goal;
    for i in (0..steps.len()).rev() {
        let (up, step) = parent(nodes, heads, n, at).unwrap();
        steps[i] = u16::from(step);
        at = up;
    }
}

// The plan of the goal into the first places of the step list: its length, if it has at most `most` steps.
pub fn reconstruct_steps(
    nodes: &[u64],
    heads: &[u64],
    steps: &mut [u16],
    n: usize,
    start: PackedState,
    goal: PackedState,
    most: usize,
) -> Option<usize>
    requires kept { Kept nodes.now heads.now n }
    requires most_in_bounds { most ≤ length steps.old }
    ensures { ReadBack start goal most (nodes_of nodes.now n) steps.old steps.new result }
{
    let k = count_steps(nodes, heads, n, start, goal, most)?;
    write_steps(nodes, heads, n, goal, &mut steps[..k]);
    Some(k)
}
