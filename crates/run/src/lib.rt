// A run of the search over lent lists: each pass of its loop is one turn of document 01.
// The lent lists stand apart: a struct of `&mut`s was tried in lists, and its contracts had to say more.
#![tactic(auto)]

ghost use Rattle.std.specs.Prelude.{◌≡◌, cond, ◌||◌, ltb};
ghost use Rattle.algebra.specs.GasBytes.{«gas_bytes»};
ghost use Rattle.astar.specs.Search.{number};
ghost use Rattle.astar.specs.Valid.{AllValid};
ghost use Rattle.lists.specs.View.{queue_of, Kept, Piled};
ghost use Rattle.search.specs.View.{posed, Awaits};
ghost use Rattle.run.specs.Ending.{ended_by};
ghost use Rattle.run.specs.View.{search_of, Roomy, Ran};

use offer::{Held, Sizes};
use search::Question;
use window::PackedState;

// The start and the goal.
#[derive(Clone, Copy, PartialEq, Eq)]
pub struct Ask {
    pub start: PackedState,
    pub goal: PackedState,
}

// Expansions, and states without and with a plan in hand.
#[derive(Clone, Copy, PartialEq, Eq)]
pub struct Allowances {
    pub max_expansions: usize,
    pub states_without: usize,
    pub states_with: usize,
}

// Why a run ended: no entry waits, the least one is cut off, or there are too many states or expansions.
#[derive(Clone, Copy, PartialEq, Eq)]
pub enum Ending {
    Drained,
    CutOff,
    States,
    Expansions,
}

// What a run leaves.
#[derive(Clone, Copy, PartialEq, Eq)]
pub struct Left {
    pub held: Held,
    pub nodes: usize,
    pub count: usize,
    pub ending: Ending,
}

// The number of an ending in document 01.
impl From<Ending> for u32 {
    ghost from_gives = { λ ending n. n ≡ number (ended_by ending) };

    #[tactic(auto, unfolding(astar::specs::Search::number))]
    fn from(ending: Ending) -> u32 {
        match ending {
            Ending::Drained => 2,
            Ending::CutOff => 3,
            Ending::States => 4,
            Ending::Expansions => 5,
        }
    }
}

impl Allowances {
    // The states that are allowed with the present hand.
    fn states(self, held: Held) -> usize
        ensures { result ≡ cond held.bound.have self.states_with self.states_without }
    {
        if held.bound.have {
            self.states_with
        } else {
            self.states_without
        }
    }
}

// Whether nodes or open entries are over the allowance.
fn over(room: usize, at: Sizes) -> bool
    ensures { result ≡ (ltb room at.nodes || ltb room at.list) }
{
    room < at.nodes || room < at.list
}

// A run from the search that the lists hold.
pub fn run(
    nodes: &mut [u64],
    heads: &mut [u64],
    list: &mut [u64],
    question: &Question<'_>,
    sizes: Sizes,
    first: Held,
    ask: Ask,
    limits: Allowances,
) -> Left
    requires kept { Kept nodes.old heads.old sizes.nodes }
    requires piled { Piled list.old sizes.list }
    requires roomy { Roomy limits nodes.old list.old }
    requires all_valid { AllValid «gas_bytes» (Awaits (posed question.now)) (queue_of list.old sizes.list) }
    ensures { Ran (posed question.now) ask limits (search_of nodes.old list.old sizes first 0) nodes.new heads.new result }
{
    let mut at = sizes;
    let mut held = first;
    let mut count = 0;
    // A loop, since a turn is left from several places; it counts expansions and no index.
    let ending = 'turns: loop {
        if at.list == 0 {
            break 'turns Ending::Drained;
        }
        let e = lists::take(list, at.list);
        at.list -= 1;
        let Some(node) = lists::recall(nodes, heads, at.nodes, e.state) else {
            continue 'turns;
        };
        if node.cost != e.g {
            continue 'turns;
        }
        if e.state.same(ask.goal) {
            held = offer::goal_drawn(held, e.g);
            continue 'turns;
        }
        if offer::cut(held, e.f) {
            break 'turns Ending::CutOff;
        }
        if over(limits.states(held), at) {
            break 'turns Ending::States;
        }
        if limits.max_expansions <= count {
            break 'turns Ending::Expansions;
        }
        at = question.expand_drawn(nodes, heads, list, at, held, e, node);
        count += 1;
    };
    Left {
        held,
        nodes: at.nodes,
        count,
        ending,
    }
}
