// What the search of a question rests on beside its lists.
#![tactic(auto)]

use arrayvec::ArrayVec;
use heuristic::Weights;
use replay::{Rules, SearchCfg};
use search::Question;
use successors::Asked;

// How often the goal has each key, the goal's keys each once, and the least gas of a Dup.
#[derive(Drop)]
pub struct Table {
    pub want: [u8; 64],
    pub keys: ArrayVec<u8, 21>,
    pub dup: u32,
}

impl Table {
    ghost use Rattle.std.specs.Prelude.{◌≡◌, List, ℕ};
    ghost use Rattle.successors.specs.Whole.{asked};
    ghost use Rattle.search.specs.View.{posed};
    ghost use Rattle.table.specs.Table.{Accepted, Prepared};

    // The table of an accepted question.
    pub fn new(goal: &[u8], prices: &[u32], cfg: SearchCfg) -> Table
        requires { (kinds : List ℕ) × Accepted cfg kinds prices.now goal.now }
        ensures { Prepared cfg prices.now goal.now result }
    {
        let mut want = [0; 64];
        heuristic::count_list(goal, &mut want);
        Table {
            want,
            keys: successors::distinct_keys(goal),
            dup: heuristic::least_dup(prices, cfg.dup_max),
        }
    }

    // The question of those lists.
    pub fn question<'a>(
        &'a self,
        goal: &'a [u8],
        rules: Rules<'a>,
        prices: &'a [u32],
    ) -> Question<'a>
        requires accepted { Accepted rules.cfg rules.kinds.now prices.now goal.now }
        requires prepared { Prepared rules.cfg prices.now goal.now self.now }
        ensures { posed result ≡ asked rules.entry.cfg rules.entry.kinds.now prices.now goal.now }
    {
        Question {
            asked: Asked {
                cfg: rules.cfg,
                kinds: rules.kinds,
                prices,
                goal,
                keys: self.keys.as_slice(),
            },
            weights: Weights {
                want: &self.want,
                dup: self.dup,
                prices,
            },
        }
    }
}
