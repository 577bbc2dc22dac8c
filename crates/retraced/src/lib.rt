// Replay and stepping back as a caller meets them together: what replay gives, stepping back takes back.
#![tactic(auto)]

ghost use Rattle.std.specs.Prelude.{◌≡◌};
ghost use Rattle.replay.specs.Machine.{plain_rules, above};
ghost use Rattle.replay.specs.Replay.{replayed};
ghost use Rattle.retraced.specs.Retraced.{taken_back};

use replay::Replayed;
use rewind::Rewound;

// The two answers.
#[derive(Clone, Copy)]
pub struct Retraced {
    pub forth: Replayed,
    pub back: Rewound,
}

// Replays steps above so many items and, where no number refuses them, steps back from the end window and with the popped keys that were
// written. Lists have any length and contents. With 21 places for it, stepping back then gives the start.
// The numbers of document 01's call, one by one, as C passes them.
pub fn retrace(
    start: &[u8],
    steps: &[u16],
    dup_max: usize,
    swap_max: usize,
    max_len: usize,
    beneath: usize,
    kinds: &[u8],
    res: &mut [u8],
    popped: &mut [u8],
    again: &mut [u8],
) -> Retraced
    ensures popped_after { (result.forth, res.new, popped.new) ≡ replayed (above beneath (plain_rules dup_max swap_max max_len kinds.now)) start.now steps.now res.old popped.old }
    ensures again_after { (result.back, again.new) ≡ taken_back result.forth.refusal start.now again.old }
{
    let forth = replay::replay(
        start, steps, dup_max, swap_max, max_len, beneath, kinds, res, popped,
    );
    // The answers are those that C gets, so a refusal is a number.
    if forth.refusal != 0 {
        let back = Rewound {
            refusal: forth.refusal,
            length: 0,
        };
        return Retraced { forth, back };
    }
    let length = forth.length;
    let keys = replay::pops(steps);
    let back = rewind::rewind(
        &res[..length],
        steps,
        &popped[..keys],
        dup_max,
        swap_max,
        max_len,
        beneath,
        kinds,
        again,
    );
    Retraced { forth, back }
}
