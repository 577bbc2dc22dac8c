// Stepping back: the start from which steps led to an end window.
#![tactic(auto)]

mod back;

ghost use Rattle.std.specs.Prelude.{◌≡◌, reverse, IfSome, length};
ghost use Rattle.std.specs.Option.{option_map};
ghost use Rattle.costs.specs.Refusal.{refusal_of};
ghost use Rattle.costs.specs.Step.{decoded};
ghost use Rattle.window.specs.Pack.{Keys};
ghost use Rattle.window.specs.Keys.{keys_of, Window};
ghost use Rattle.replay.specs.Machine.{plain_rules, above, rules_of};
ghost use Rattle.replay.specs.Rows.{given_by};
ghost use Rattle.replay.specs.Laws.{Ready};
ghost use Rattle.rewind.specs.Walk.{put_by, regrown, ungrown, unswapped, back_over, back_on, start_before};
ghost use Rattle.rewind.specs.Held.{back_of, rewound_of};
ghost use Rattle.rewind.specs.Rewind.{rewind_refusal, rewound};
ghost use Rattle.rewind.specs.Led.{SteppedBack};

use back::Back;
use costs::{Refusal, Step};
use replay::{Given, Rules, SearchCfg};
use window::PackedState;

// What stepping back answers: the number of a refusal or 0, the start's length. Numbers, since C gets it.
#[repr(C)]
#[derive(Clone, Copy)]
pub struct Rewound {
    pub refusal: u32,
    pub length: usize,
}

// The key that a step puts on top of a window, 0 for a step that puts none. No Option: it is asked of steps that put one, and `put_by` is a number.
fn key_put(state: PackedState, step: Step) -> u8
    requires { Window state × Ready step (length (keys_of state)) }
    ensures { result ≡ put_by step (keys_of state) }
{
    match step {
        Step::Pop | Step::Swap(_) => 0,
        Step::Dup(p) => state.get(p as usize),
        Step::PushImm(k) | Step::LoadVal(k) => k,
    }
}

// Back over a Pop. Here and below the rules stay and the place moves, so the two go side by side.
fn put_back<'a>(rules: Rules<'_>, at: Back<'a>) -> Option<Back<'a>>
    ensures { option_map back_of result ≡ regrown rules.entry.cfg.max_len (keys_of at.entry.state) (reverse at.entry.left.now) }
{
    let [left @ .., key] = at.left else {
        return None;
    };
    if !replay::has_room(rules.cfg.max_len, at.state.len()) {
        return None;
    }
    Some(Back {
        state: at.state.push(*key),
        left,
    })
}

// Back over a step that put a key on top.
fn take_off<'a>(rules: Rules<'_>, at: Back<'a>, step: Step) -> Option<Back<'a>>
    ensures { option_map back_of result ≡ ungrown (rules_of rules.entry) step (keys_of at.entry.state) (reverse at.entry.left.now) }
{
    let below = at.state.len().checked_sub(1)?;
    let top = at.state.get(0);
    let state = at.state.pop();
    if !rules.allows(step, below) {
        return None;
    }
    let key = key_put(state, step);
    if key != top {
        return None;
    }
    Some(Back {
        state,
        left: at.left,
    })
}

// Back over a Swap.
#[tactic(auto, using(replay::specs::Laws::ready))]
fn swap_back<'a>(rules: Rules<'_>, at: Back<'a>, step: Step) -> Option<Back<'a>>
    ensures { option_map back_of result ≡ unswapped (rules_of rules.entry) step (keys_of at.entry.state) (reverse at.entry.left.now) }
{
    if !rules.allows(step, at.state.len()) {
        return None;
    }
    Some(Back {
        state: replay::moved(at.state, step),
        left: at.left,
    })
}

// One step back, if the step can have led here.
#[tactic(auto, unfolding(crate::specs::Walk::back_over))]
fn undo<'a>(rules: Rules<'_>, at: Back<'a>, step: Step) -> Option<Back<'a>>
    ensures { option_map back_of result ≡ back_over (rules_of rules.entry) step (keys_of at.entry.state) (reverse at.entry.left.now) }
{
    match step {
        Step::Pop => put_back(rules, at),
        Step::Swap(_) => swap_back(rules, at, step),
        Step::Dup(_) | Step::PushImm(_) | Step::LoadVal(_) => take_off(rules, at, step),
    }
}

// The same for a code.
fn step_back<'a>(rules: Rules<'_>, at: Back<'a>, code: u16) -> Option<Back<'a>>
    ensures { option_map back_of result ≡ back_on (rules_of rules.entry) (decoded code) (back_of at.entry) }
{
    let step = Step::try_from(code).ok()?;
    undo(rules, at, step)
}

// The start before the steps: back from the last to the first, unless one cannot have led there; all popped keys must then be put back.
fn walk_back(rules: Rules<'_>, end: Back<'_>, steps: &[u16]) -> Option<PackedState>
    ensures start { option_map keys_of result ≡ start_before (rules_of rules.entry) (keys_of end.entry.state) steps.now end.entry.left.now }
    ensures window { IfSome result Window }
{
    let mut at = end;
    for &code in steps.iter().rev() {
        at = step_back(rules, at, code)?;
    }
    at.left.is_empty().then_some(at.state)
}

// Refusals 1 to 7, and 12 before 6.
fn check(
    given: Given<'_>,
    end: &[u8],
    steps: usize,
    popped: &[u8],
    places: usize,
) -> Result<(), Refusal>
    ensures { refusal_of result ≡ rewind_refusal (given_by given.entry) end.now steps popped.now places }
{
    given.check(65536 < steps)?;
    given.check_keys(end, popped, given.cfg.max_len < end.len())?;
    if places < 21 {
        return Err(Refusal::ShortList);
    }
    Ok(())
}

// Beside a refusal the length is zero. C gets star_swap's `Written` by other names, so each struct has its `From`.
impl From<Result<usize, Refusal>> for Rewound {
    ghost from_gives = { λ answer rewound. rewound ≡ rewound_of answer };

    fn from(answer: Result<usize, Refusal>) -> Rewound {
        match answer {
            Ok(length) => Rewound { refusal: 0, length },
            Err(refusal) => Rewound {
                refusal: refusal.number(),
                length: 0,
            },
        }
    }
}

// The start's length, with the start over the first places of the result list, or why there is none.
fn try_rewind(
    end: &[u8],
    steps: &[u16],
    popped: &[u8],
    given: Given<'_>,
    res: &mut [u8],
) -> Result<usize, Refusal>
    ensures { (rewound_of result, res.new) ≡ rewound (given_by given.entry) end.now steps.now popped.now res.old }
{
    check(given, end, steps.len(), popped, res.len())?;
    let rules = given.narrowed();
    let end = Back {
        state: PackedState::from_ids(end),
        left: popped,
    };
    let start = walk_back(rules, end, steps).ok_or(Refusal::Start)?;
    Ok(start.write(res))
}

// The start from which the steps lead, above so many items, to the end window with these keys popped: its length, with the start over the
// first places of the result list. The walk back goes by the narrowed rules (law `may_grow`).
// The numbers of document 01's call, one by one, as C passes them.
pub fn rewind(
    end: &[u8],
    steps: &[u16],
    popped: &[u8],
    dup_max: usize,
    swap_max: usize,
    max_len: usize,
    beneath: usize,
    kinds: &[u8],
    res: &mut [u8],
) -> Rewound
    ensures res_after { (result, res.new) ≡ rewound (above beneath (plain_rules dup_max swap_max max_len kinds.now)) end.now steps.now popped.now res.old }
    ensures stepped_back { SteppedBack (above beneath (plain_rules dup_max swap_max max_len kinds.now)) end.now steps.now popped.now res.old (result, res.new) }
{
    let cfg = SearchCfg {
        dup_max,
        swap_max,
        max_len,
    };
    let given = Given {
        cfg,
        beneath,
        kinds,
    };
    Rewound::from(try_rewind(end, steps, popped, given, res))
}
