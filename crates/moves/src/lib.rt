// From a state that is expanded and a step to the successor: the window after the step, the step's price, and that window's estimate.
#![tactic(auto)]

ghost use Rattle.std.specs.Prelude.{◌≡◌, List, [], ◌∷◌, ℕ, ◌<◌, length};
ghost use Rattle.replay.specs.Machine.{after};
ghost use Rattle.replay.specs.Laws.{Ready};
ghost use Rattle.window.specs.Keys.{keys_of, Window};
ghost use Rattle.heuristic.specs.Heuristic.{least_dup};
ghost use Rattle.heuristic.specs.Counts.{Counted};
ghost use Rattle.moves.specs.Moves.{Asking, Formed, Parent, Told};
ghost use Rattle.moves.specs.View.{Expands};

use costs::{Cost, Step};
use heuristic::Weights;
use offer::Successor;
use window::PackedState;

// A state that is expanded: its estimate, the counts of its keys, and what the estimates rest on.
#[derive(Clone, Copy)]
pub struct Expansion<'a> {
    pub state: PackedState,
    pub estimate: u32,
    pub have: &'a [u8; 64],
    pub weights: Weights<'a>,
}

impl Expansion<'_> {
    // The successor by a step to a state with an estimate of so much gas.
    fn to(self, step: Step, state: PackedState, gas: u32) -> Successor
        ensures { Formed self.entry.weights.prices.now step state gas result }
    {
        let price = costs::price_of(self.weights.prices, Some(step));
        Successor {
            state,
            price: u64::from(price),
            est: u64::from(Cost { gas, bytes: 0 }),
            step,
        }
    }

    // The successor by a step that puts a key on top.
    // A key is a byte of a list that C lends and no type of its own, so that it is below 64 is asked.
    fn push(self, step: Step, key: u8) -> Successor
        requires { (key < 64) × (length (keys_of self.state) < 21) × (key ∷ keys_of self.state ≡ after step (keys_of self.state)) × ((goal : List ℕ) × ((dup_max : ℕ) × Expands self goal dup_max)) }
        ensures { (goal : List ℕ) → (dup_max : ℕ) → Expands self.entry goal dup_max → Told self.entry.weights.prices.now dup_max goal (keys_of self.entry.state) step result }
    {
        let gas = self.weights.after_push(self.estimate, self.have, key);
        self.to(step, self.state.push(key), gas)
    }

    // The successor by a step. One match tells its window and its estimate: with replay::moved and a match for the estimate a successor took half
    // as long again.
    pub fn follow(self, step: Step) -> Successor
        requires { Ready step (length (keys_of self.state)) × ((goal : List ℕ) × ((dup_max : ℕ) × Expands self goal dup_max)) }
        ensures { (goal : List ℕ) → (dup_max : ℕ) → Expands self.entry goal dup_max → Told self.entry.weights.prices.now dup_max goal (keys_of self.entry.state) step result }
    {
        let state = self.state;
        match step {
            Step::Pop => {
                let gas = self
                    .weights
                    .after_pop(self.estimate, self.have, state.get(0));
                self.to(step, state.pop(), gas)
            }
            Step::Dup(p) => self.push(step, state.get(p as usize)),
            Step::Swap(d) => self.to(step, state.swap(d as usize), self.estimate),
            Step::PushImm(key) | Step::LoadVal(key) => self.push(step, key),
        }
    }
}

// The estimate of a state, and the counts of its keys, into a table of zeros. The keys are the goal's, each once.
pub fn standing(weights: Weights<'_>, state: PackedState, keys: &[u8], have: &mut [u8; 64]) -> u32
    requires { Window state × Counted have.old [] × ((goal : List ℕ) × Asking weights.prices.now weights.want.now keys.now goal) }
    ensures { (goal : List ℕ) → (dup_max : ℕ) → Asking weights.entry.prices.now weights.entry.want.now keys.now goal → weights.entry.dup ≡ least_dup weights.entry.prices.now dup_max
        → Parent weights.entry.prices.now weights.entry.dup result have.new weights.entry.want.now state goal dup_max }
{
    let base = weights.bare(keys);
    weights.standing(state, base, have)
}
