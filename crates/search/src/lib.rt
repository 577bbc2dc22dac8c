// The expansion of a state: its successors, each offered to the lists.
// The lent lists stand apart: a struct of `&mut`s was tried in lists, and its contracts had to say more.
#![tactic(auto)]

ghost use Rattle.std.specs.Prelude.{◌≡◌, [], map, ◌≤◌, length};
ghost use Rattle.astar.specs.Search.{step_of};
ghost use Rattle.problem.specs.Problem.{edge, edges_from, depth_of_code};
ghost use Rattle.lists.specs.View.{parent_is};
ghost use Rattle.search.specs.Ready.{Ready, ready_prop};

use costs::{Cost, Step};
use heap::Entry;
use heuristic::Weights;
use lists::Node;
use moves::Expansion;
use offer::{Held, Origin, Sizes};
use successors::Asked;
use window::PackedState;

// A question as the search has it: what its successors are asked by, and what its estimates rest on.
#[derive(Clone, Copy)]
pub struct Question<'a> {
    pub asked: Asked<'a>,
    pub weights: Weights<'a>,
    ghost ready: { Ready asked weights } by { ready_prop asked weights },
}

// The depth of the Swap that led to a state, 0 if its step was none. No Option: no Swap has the depth 0, and document 01 compares depths.
#[tactic(auto, unfolding(astar::specs::Search::step_of, costs::specs::Step::decoded))]
fn last_depth(parent: Option<(PackedState, Step)>) -> usize
    ensures { result ≡ depth_of_code (step_of (parent_is parent)) }
{
    match parent {
        Some((_, Step::Swap(d))) => d as usize,
        _ => 0,
    }
}

impl Question<'_> {
    ghost use Rattle.window.specs.Keys.{keys_of, Window};
    ghost use Rattle.heuristic.specs.Counts.{Counted};
    ghost use Rattle.replay.specs.Laws.{Ready as CanDo};
    ghost use Rattle.successors.specs.Parts.{All};
    ghost use Rattle.lists.specs.View.{waits};
    ghost use Rattle.offer.specs.View.{work_of, HasRoom, Now};
    ghost use Rattle.search.specs.View.{posed, Stands, all_offered, Awaits, origin_of};

    // The estimate of a state, and the counts of its keys, into a table of zeros.
    pub fn standing(&self, state: PackedState, have: &mut [u8; 64]) -> u32
        requires { Window state × Counted have.old [] }
        ensures { Stands self.now state result have.new }
    {
        moves::standing(self.weights, state, self.asked.keys, have)
    }

    // The same of a state that is drawn, from its entry: only where the gas of its f stops at the greatest u32 is it added up anew.
    fn drawn(&self, e: Entry<u64>, have: &mut [u8; 64]) -> u32
        requires { Window e.state × Awaits (posed self.now) (waits e) × Counted have.old [] }
        ensures { Stands self.now e.state result have.new }
    {
        let gas = Cost::from(e.f).gas;
        if gas == u32::MAX {
            return self.standing(e.state, have);
        }
        heuristic::count_window(e.state, have);
        gas - Cost::from(e.g).gas
    }

    // Offers the successors of p by the steps, in order. p's estimate is h, and have is the counts of its keys.
    fn offers(
        &self,
        nodes: &mut [u64],
        heads: &mut [u64],
        list: &mut [u64],
        sizes: Sizes,
        held: Held,
        p: Origin,
        h: u32,
        have: &[u8; 64],
        steps: &[Step],
    ) -> Sizes
        requires room { HasRoom 50 nodes.old heads.old list.old sizes }
        requires stands { Stands self.now p.state h have.now }
        requires few { length steps.now ≤ 50 }
        requires can_do { All (λ s. CanDo s (length (keys_of p.state))) steps.now }
        ensures { Now 50 sizes (all_offered (posed self.now) held p (map (edge (posed self.now).prices (keys_of p.state)) steps.now) (work_of nodes.old list.old sizes))
            nodes.new heads.new list.new result }
    {
        let expansion = Expansion {
            state: p.state,
            estimate: h,
            have,
            weights: self.weights,
        };
        let mut at = sizes;
        for &step in steps {
            at = offer::offer(nodes, heads, list, at, held, p, expansion.follow(step));
        }
        at
    }

    // Expands the entry e that was drawn, where node is its node: offers its successors in order.
    pub fn expand_drawn(
        &self,
        nodes: &mut [u64],
        heads: &mut [u64],
        list: &mut [u64],
        sizes: Sizes,
        held: Held,
        e: Entry<u64>,
        node: Node,
    ) -> Sizes
        requires room { HasRoom 50 nodes.old heads.old list.old sizes }
        requires awaits { Awaits (posed self.now) (waits e) }
        ensures { Now 50 sizes (all_offered (posed self.now) held (origin_of e)
            (edges_from (posed self.now) (keys_of e.state) (depth_of_code (step_of (parent_is node.parent)))) (work_of nodes.old list.old sizes))
            nodes.new heads.new list.new result }
    {
        let steps = self.asked.expand(e.state, last_depth(node.parent));
        let mut have = [0; 64];
        let h = self.drawn(e, &mut have);
        let p = Origin {
            state: e.state,
            cost: e.g,
        };
        self.offers(nodes, heads, list, sizes, held, p, h, &have, &steps)
    }
}
