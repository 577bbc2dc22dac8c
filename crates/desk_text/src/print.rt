// Printing the desk's answer.
ghost use Rattle.std.specs.Prelude.{◌≡◌, ◌+◌, ◌*◌, ◌<◌, ◌≤◌, [], ◌∷◌, length};
ghost use Rattle.desk_text.specs.Text.{word_line, step_text, fields_of, line_text, steps_text, plan_text, desk_text, printed};
ghost use Rattle.desk_text.specs.Put.{Put, parted};

use arrayvec::ArrayString;
use costs::Step;
use itoa::Buffer;

// The planner's nine fields and the highest window. The planner's own answer has them beside a refusal, but the desk's text stands
// on the costs alone, and the planner's type would put the whole engine below it.
#[derive(Clone, Copy, PartialEq, Eq)]
pub struct Fields {
    pub found: usize,
    pub step_count: usize,
    pub plan_gas: usize,
    pub plan_bytes: usize,
    pub ceiling_gas: usize,
    pub ceiling_bytes: usize,
    pub origin: usize,
    pub ending: usize,
    pub expansions: usize,
    pub highest: usize,
}

// What the desk says; a refusal goes by its number, as in the planner's answer.
#[derive(Clone, Copy, PartialEq, Eq)]
pub enum Spoken {
    Plan(Fields),
    Refused(usize),
    Unreadable,
}

// A word of at most 8 bytes, a number of at most 20 digits and a line feed.
fn word_line(word: &str, n: usize) -> ArrayString<29>
    requires { length word.now ≤ 8 }
    ensures { result.bytes ≡ word_line word.now n }
{
    let mut line = ArrayString::new();
    line.push_str(word);
    line.push_str(Buffer::new().format(n));
    line.push_str("\n");
    line
}

// A step's line. It is no `Display`, whose contract does not say that writing succeeds.
fn step_line(step: Step) -> ArrayString<29>
    ensures { result.bytes ≡ step_text step }
{
    match step {
        Step::Pop => {
            let mut line = ArrayString::new();
            line.push_str("pop\n");
            line
        }
        Step::Dup(p) => word_line("dup ", usize::from(p)),
        Step::Swap(d) => word_line("swap ", usize::from(d)),
        Step::PushImm(k) => word_line("push ", usize::from(k)),
        Step::LoadVal(k) => word_line("load ", usize::from(k)),
    }
}

// What stands behind the number at place i of so many: a space, or at the end a line feed.
#[tactic(auto, unfolding(crate::specs::Put::parted))]
fn parting(i: usize, count: usize) -> &'static str
    requires { i < count }
    ensures { result.now ≡ parted i count ∷ [] }
{
    if i + 1 < count { " " } else { "\n" }
}

// At most ten numbers of at most 20 digits parted by single spaces, and a line feed.
fn number_line(numbers: &[usize]) -> ArrayString<210>
    requires { length numbers.now ≤ 10 }
    ensures { result.bytes ≡ line_text numbers.now }
{
    let mut line = ArrayString::new();
    for (i, &n) in numbers.iter().enumerate() {
        line.push_str(Buffer::new().format(n));
        line.push_str(parting(i, numbers.len()));
    }
    line
}

// A text at a place of the buffer; the place behind it. The buffer is lent and there is no heap, so the place is handed on.
fn put(out: &mut [u8], at: usize, text: &str) -> usize
    requires { at + length text.now ≤ length out.old }
    ensures { Put out.old at text.now out.new result }
{
    let end = at + text.len();
    out[at..end].copy_from_slice(text.as_bytes());
    end
}

// The steps one a line. A code that stands for no step prints nothing, and a plan has none.
fn put_steps(out: &mut [u8], at: usize, steps: &[u16]) -> usize
    requires { at + 29 * length steps.now ≤ length out.old }
    ensures { Put out.old at (steps_text steps.now) out.new result }
{
    let mut next = at;
    for &code in steps {
        if let Ok(step) = Step::try_from(code) {
            next = put(out, next, step_line(step).as_str());
        }
    }
    next
}

// The answer's line and the plan's steps.
fn put_plan(out: &mut [u8], a: Fields, steps: &[u16]) -> usize
    requires { 210 + 29 * length steps.now ≤ length out.old }
    ensures { Put out.old 0 (plan_text a steps.now) out.new result }
{
    let line = number_line(&[
        a.found,
        a.step_count,
        a.plan_gas,
        a.plan_bytes,
        a.ceiling_gas,
        a.ceiling_bytes,
        a.origin,
        a.ending,
        a.expansions,
        a.highest,
    ]);
    let next = put(out, 0, line.as_str());
    put_steps(out, next, steps)
}

// What the desk says, over the first places of a buffer; how many bytes it is.
pub fn print(spoken: Spoken, steps: &[u16], out: &mut [u8]) -> usize
    requires { 210 + 29 * length steps.now ≤ length out.old }
    ensures { (result, out.new) ≡ printed (desk_text spoken steps.now) out.old }
{
    match spoken {
        Spoken::Plan(fields) => put_plan(out, fields, steps),
        Spoken::Refused(number) => put(out, 0, word_line("refused ", number).as_str()),
        Spoken::Unreadable => put(out, 0, "unreadable\n"),
    }
}
