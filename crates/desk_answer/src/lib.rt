// The desk's answer: from what was read to the text that is written.
#![tactic(auto)]

ghost use Rattle.std.specs.Prelude.{◌≡◌, ◌≤◌, length};
ghost use Rattle.desk_text.specs.Noted.{noted};
ghost use Rattle.desk_text.specs.Question.{question_of};
ghost use Rattle.desk_text.specs.Text.{printed};
ghost use Rattle.desk_answer.specs.Planning.{planning};
ghost use Rattle.desk_answer.specs.Desk.{spoken_of, said, zeros, desk_answer, Responded};

use desk_text::print::{Fields, Spoken, print};
use desk_text::read::{Limits, Reader, number_room};
use desk_text::tables::{kinds, prices};
use planner::{Answer, plan};

// How many entries the work lists have room for.
const ENTRIES: usize = 1050;

// What the desk says of the planner's answer. It is no `From`, since neither type is this crate's own.
fn spoken(a: Answer) -> Spoken
    ensures { result ≡ spoken_of a }
{
    // The answers are those that C gets, so a refusal is a number.
    if a.refusal != 0 {
        return Spoken::Refused(a.refusal as usize);
    }
    Spoken::Plan(Fields {
        found: a.found as usize,
        step_count: a.step_count,
        plan_gas: a.plan_gas as usize,
        plan_bytes: a.plan_bytes as usize,
        ceiling_gas: a.ceiling_gas as usize,
        ceiling_bytes: a.ceiling_bytes as usize,
        origin: a.origin as usize,
        ending: a.ending as usize,
        expansions: a.expansions,
        highest: a.highest,
    })
}

// The planner's answer to a question with the desk's tables and work lists: eight numbers to a node, one to a head, four to an open entry.
#[tactic(auto, using(crate::specs::Planning::planned_count), unfolding(crate::specs::Planning::planning))]
fn planned(limits: Limits, start: &[u8], goal: &[u8], steps: &mut [u16]) -> Answer
    ensures answer { (result, steps.new) ≡ planning limits start.now goal.now steps.old }
    ensures room { result.step_count ≤ length steps.old }
{
    let kinds = kinds();
    let prices = prices();
    let mut nodes = [0; 8 * ENTRIES];
    let mut heads = [0; ENTRIES];
    let mut list = [0; 4 * ENTRIES];
    plan(
        start,
        goal,
        limits.dup_max,
        limits.swap_max,
        limits.max_len,
        0,
        limits.max_expansions,
        limits.states_without,
        limits.states_with,
        &kinds,
        &prices,
        steps,
        &mut nodes,
        &mut heads,
        &mut list,
    )
}

// The planner's answer to a question, as text.
#[tactic(auto, unfolding(crate::specs::Desk::zeros))]
fn ask(limits: Limits, start: &[u8], goal: &[u8], out: &mut [u8]) -> usize
    requires { 32768 ≤ length out.old }
    ensures { (result, out.new) ≡ printed (said (planning limits start.now goal.now zeros)) out.old }
{
    let mut steps = [0; 1000];
    let a = planned(limits, start, goal, &mut steps);
    print(spoken(a), &steps[..a.step_count], out)
}

// What the desk says at the end of its input, over the first places of a buffer; how many bytes it is.
pub fn respond(reader: Reader, list: &mut [usize; 192], out: &mut [u8]) -> usize
    requires { 32768 ≤ length out.old }
    ensures { Responded (noted reader list.old) out.old result out.new }
{
    match reader.finish(list) {
        Some(q) => ask(q.limits, q.start.as_slice(), q.goal.as_slice(), out),
        None => print(Spoken::Unreadable, &[], out),
    }
}

// What the desk says of a whole input.
pub fn answer(text: &[u8], out: &mut [u8]) -> usize
    requires { 32768 ≤ length out.old }
    ensures { (result, out.new) ≡ printed (desk_answer (question_of text.now)) out.old }
{
    let mut list = number_room();
    let reader = Reader::new().feed(text, &mut list);
    respond(reader, &mut list, out)
}
