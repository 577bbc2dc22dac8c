// The public calls as C functions on numbers and slices (a slice passes as a pointer, then a length). Each is one call, with its contract.
// include/nimskerf_proved.h declares them; c/nimskerf.c, which C programs call, checks pointers and hands on.
#![tactic(auto)]

ghost use Rattle.std.specs.Prelude.{◌≡◌, length};
ghost use Rattle.costs.specs.Table.{count_of};
ghost use Rattle.window.specs.Packing.{packing};
ghost use Rattle.replay.specs.Machine.{plain_rules, above};
ghost use Rattle.replay.specs.Replay.{replayed};
ghost use Rattle.rewind.specs.Rewind.{rewound};
ghost use Rattle.rewind.specs.Led.{SteppedBack};
ghost use Rattle.marking.specs.Marking.{marked, ceiling};
ghost use Rattle.star_swap.specs.Refusal.{star_swapped};
ghost use Rattle.builders.specs.Tail.{deleted};
ghost use Rattle.planner.specs.Refusal.{asked, allowances, lent};
ghost use Rattle.planner.specs.Planned.{planned_for, WorkKept};

use marking::Marked;
use planner::Answer;
use replay::Replayed;
use rewind::Rewound;
use star_swap::Written;
use window::Packing;

#[unsafe(no_mangle)]
pub extern "C" fn nimskerf_proved_plan(
    start: &[u8],
    goal: &[u8],
    dup_max: usize,
    swap_max: usize,
    max_len: usize,
    beneath: usize,
    max_expansions: usize,
    states_without: usize,
    states_with: usize,
    kinds: &[u8],
    prices: &[u32],
    steps: &mut [u16],
    nodes: &mut [u64],
    heads: &mut [u64],
    list: &mut [u64],
) -> Answer
    ensures steps_after { (result, steps.new) ≡ planned_for
        (asked (above beneath (plain_rules dup_max swap_max max_len kinds.now)) prices.now start.now goal.now (allowances max_expansions states_without states_with))
        (lent (length steps.old) (length nodes.old) (length heads.old) (length list.old))
        steps.old }
    ensures work_kept { WorkKept result.refusal nodes.old nodes.new × WorkKept result.refusal heads.old heads.new × WorkKept result.refusal list.old list.new }
{
    planner::plan(
        start,
        goal,
        dup_max,
        swap_max,
        max_len,
        beneath,
        max_expansions,
        states_without,
        states_with,
        kinds,
        prices,
        steps,
        nodes,
        heads,
        list,
    )
}

#[unsafe(no_mangle)]
pub extern "C" fn nimskerf_proved_replay(
    start: &[u8],
    steps: &[u16],
    dup_max: usize,
    swap_max: usize,
    max_len: usize,
    beneath: usize,
    kinds: &[u8],
    res: &mut [u8],
    popped: &mut [u8],
) -> Replayed
    ensures { (result, res.new, popped.new) ≡ replayed (above beneath (plain_rules dup_max swap_max max_len kinds.now)) start.now steps.now res.old popped.old }
{
    replay::replay(
        start, steps, dup_max, swap_max, max_len, beneath, kinds, res, popped,
    )
}

#[unsafe(no_mangle)]
pub extern "C" fn nimskerf_proved_rewind(
    end: &[u8],
    steps: &[u16],
    popped: &[u8],
    dup_max: usize,
    swap_max: usize,
    max_len: usize,
    beneath: usize,
    kinds: &[u8],
    res: &mut [u8],
) -> Rewound
    ensures res_after { (result, res.new) ≡ rewound (above beneath (plain_rules dup_max swap_max max_len kinds.now)) end.now steps.now popped.now res.old }
    ensures stepped_back { SteppedBack (above beneath (plain_rules dup_max swap_max max_len kinds.now)) end.now steps.now popped.now res.old (result, res.new) }
{
    rewind::rewind(
        end, steps, popped, dup_max, swap_max, max_len, beneath, kinds, res,
    )
}

#[unsafe(no_mangle)]
pub extern "C" fn nimskerf_proved_pops(steps: &[u16]) -> usize
    ensures { result ≡ count_of 0 steps.now }
{
    replay::pops(steps)
}

#[unsafe(no_mangle)]
pub extern "C" fn nimskerf_proved_mark(
    start: &[u8],
    goal: &[u8],
    steps: &[u16],
    dup_max: usize,
    swap_max: usize,
    max_len: usize,
    beneath: usize,
    kinds: &[u8],
    prices: &[u32],
    ceiling_gas: u32,
    ceiling_bytes: u32,
) -> Marked
    ensures { result ≡ marked (above beneath (plain_rules dup_max swap_max max_len kinds.now)) prices.now start.now goal.now steps.now (ceiling ceiling_gas ceiling_bytes) }
{
    marking::mark(
        start,
        goal,
        steps,
        dup_max,
        swap_max,
        max_len,
        beneath,
        kinds,
        prices,
        ceiling_gas,
        ceiling_bytes,
    )
}

#[unsafe(no_mangle)]
pub extern "C" fn nimskerf_proved_pack(ids: &[u8]) -> Packing
    ensures { result ≡ packing 6 21 ids.now }
{
    window::pack(ids)
}

#[unsafe(no_mangle)]
pub extern "C" fn nimskerf_proved_star_swap(
    start: &[u8],
    goal: &[u8],
    swap_max: usize,
    steps: &mut [u16],
) -> Written
    ensures { (result, steps.new) ≡ star_swapped swap_max start.now goal.now steps.old }
{
    star_swap::star_swap(start, goal, swap_max, steps)
}

#[unsafe(no_mangle)]
pub extern "C" fn nimskerf_proved_delete_tail(
    start: &[u8],
    goal: &[u8],
    swap_max: usize,
    steps: &mut [u16],
) -> Written
    ensures { (result, steps.new) ≡ deleted swap_max start.now goal.now steps.old }
{
    builders::delete_tail(start, goal, swap_max, steps)
}
