// The exam desk: a question on standard input, its answer on standard output.
//
// The crate's `stdin` is longer than two of the buffers that are read: leading zeros put the number 16 across the first boundary, the
// second line's end before the next, and the goal behind the third.
//
// What cannot be read or written is said on standard error; where the input cannot be read, nothing is written on standard output.
//
// No contract can say what the system gives or takes, so the work stands in functions that are generic over a reader and a writer.
// Proved at any reader: each turn feeds the piece that it gives back, a slice of the buffer, once (`hear`); the loop does nothing else to the reader
// (`listen`); the answer is that to all the pieces in a row (`reply`). Proved where the bytes of the input and of the output are known:
// the pieces are the input, a passing failure is tried again and loses nothing, and what is written is the desk's answer to the whole
// input, or behind a failure the first bytes of it (`run`). Tested by tests/desk.c: the same of the system's streams, by their bytes.
#![tactic(auto)]

ghost use Rattle.std.specs.Prelude.{◌≡◌, ◌<◌, ◌≤◌, ◌↔◌, ◌⊎◌, ℕ, true, IsTrue, IfOk, IfErr, OnOk, OnErr, [], length, take};
ghost use Rattle.std.specs.Io.{ReadsAtMost, WritesAtMost};
ghost use Rattle.std.specs.Io.KnownBytes.{Appends, Consumes, IsAtEnd, Keeps, ReadConsumes, WriteAppends};
ghost use Rattle.std.specs.IoError.{error_kind};
ghost use Rattle.desk_text.specs.Noted.{noted};
ghost use Rattle.desk_text.specs.Reader.{Fed, Settled};
ghost use Rattle.desk_text.specs.Pieces.{FedPieces};
ghost use Rattle.desk.specs.Listening.{Replied};
ghost use Rattle.desk.specs.Bytes.{Passing, Listened, Stopped, RepliedTo, Served};

use desk_answer::respond;
use desk_text::read::{Reader, number_room};
use std::fmt::{self, Display, Formatter, InlineText};
use std::io::{self, ErrorKind, Read, Write};
use std::process::ExitCode;
use std::rt::Clock;
use std::thread;
use std::time::Duration;

// A piece of the input, and the reader that was fed with it.
#[derive(Clone, Copy)]
struct Turn<'a> {
    reader: Reader,
    piece: &'a [u8],
}

// What the desk could not do, and the system's reason.
#[derive(Clone, Copy)]
enum Fault {
    Unread(io::Error),
    Unwritten(io::Error),
}

// The text of a system's error without its number.
fn reason(text: &str) -> &str {
    text.split_once(" (os error ")
        .map_or(text, |(words, _)| words)
}

impl Display for Fault {
    fn fmt<W: fmt::Write>(&self, f: &mut Formatter<W>) -> fmt::Result {
        let (what, error) = match *self {
            Fault::Unread(error) => ("standard input could not be read", error),
            Fault::Unwritten(error) => ("standard output could not be written", error),
        };
        let text = InlineText::<256>::of(error);
        let why = reason(text.as_str());
        write!(f, "{what}: {why}")
    }
}

// Whether a call that failed is to be tried again: it was interrupted, or it would have waited.
fn is_passing(error: &io::Error) -> bool
    ensures { IsTrue result ↔ Passing (error_kind error.now) }
{
    matches!(error.kind(), ErrorKind::Interrupted | ErrorKind::WouldBlock)
}

// Waits a millisecond before the next try.
fn pause(clock: &impl Clock) {
    thread::sleep(clock, Duration::from_millis(1));
}

// What is said if the tries are used up, which no run does.
fn gave_up() -> io::Error
    ensures { error_kind result ≡ ErrorKind.TimedOut }
{
    io::Error::from(ErrorKind::TimedOut)
}

// One read into a buffer, tried again after a passing failure. The tries are counted up to a number that no run reaches.
fn read_piece<R: Read>(input: &mut R, clock: &impl Clock, piece: &mut [u8]) -> io::Result<usize>
    ensures bound { ReadsAtMost result piece.new }
    ensures bytes { ReadConsumes (R.remaining input.old) (R.remaining input.new) result piece.new }
    ensures retried { IfErr result (λ e. Passing (error_kind e) → ⊥) }
{
    for _ in 0..u64::MAX {
        match input.read(piece) {
            Ok(count) => return Ok(count),
            Err(error) if is_passing(&error) => pause(clock),
            Err(error) => return Err(error),
        }
    }
    Err(gave_up())
}

// A piece more: what the read left in the buffer is fed, once, and given back. Behind a read that failed nothing more is done.
fn hear<'a, R: Read>(
    input: &mut R,
    clock: &impl Clock,
    reader: Reader,
    piece: &'a mut [u8],
    list: &mut [usize; 192],
) -> io::Result<Turn<'a>>
    ensures fed { IfOk result (λ turn. Fed turn.piece.now (noted reader list.old) (noted turn.reader list.new)) }
    ensures taken { IfOk result (λ turn. Consumes (R.remaining input.old) (R.remaining input.new) turn.piece.now) }
    ensures end { IfOk result (λ turn. turn.piece.now ≡ [] → 0 < length piece.old → IsAtEnd (R.remaining input.new)) }
    ensures kept { OnErr result (Keeps (R.remaining input.old) (R.remaining input.new)) }
    ensures unfed { OnErr result (list.new ≡ list.old) }
{
    let count = read_piece(input, clock, piece)?;
    let piece = &piece[..count];
    let reader = reader.feed(piece, list);
    Ok(Turn { reader, piece })
}

// Whether the input is whole: a read found its end, or whatever follows is passed over.
fn is_whole(turn: Turn<'_>) -> bool
    ensures whole { result ≡ true → (turn.entry.piece.now ≡ []) ⊎ Settled turn.entry.reader true }
    ensures end { turn.entry.piece.now ≡ [] → IsTrue result }
{
    turn.piece.is_empty() || turn.reader.is_settled()
}

// Reads on, piece by piece, until the input is whole. The reader was fed with the pieces and with nothing else, in their order. The turns
// are counted up to a number that no run reaches.
#[tactic(auto, using(desk_text::specs::Feeding::sound_is, desk_text::specs::Pieces::piece_none, desk_text::specs::Pieces::piece_more, crate::proofs::Bytes::listened_none, crate::proofs::Bytes::listened_more, crate::proofs::Bytes::stopped_at))]
fn listen<R: Read>(
    input: &mut R,
    clock: &impl Clock,
    mut reader: Reader,
    piece: &mut [u8],
    list: &mut [usize; 192],
) -> io::Result<Reader>
    ensures fed { IfOk result (λ last. FedPieces (noted reader list.old) (noted last list.new)) }
    ensures taken { IfOk result (λ last. Listened (noted reader list.old) (noted last list.new) (R.remaining input.old) (R.remaining input.new)) }
    ensures whole { IfOk result (λ last. 0 < length piece.old → IsAtEnd (R.remaining input.new) ⊎ Settled last true) }
    ensures stopped { OnErr result (Stopped (noted reader list.old) list.new (R.remaining input.old) (R.remaining input.new)) }
{
    for _ in 0..u64::MAX {
        let turn = hear(input, clock, reader, piece, list)?;
        if is_whole(turn) {
            return Ok(turn.reader);
        }
        reader = turn.reader;
    }
    Err(gave_up())
}

// The answer to what was heard before and the input behind it, over the first places of a buffer; how many bytes it is.
#[tactic(auto, using(crate::specs::Listening::replied_whole, crate::proofs::Bytes::replied_to))]
fn reply<R: Read>(
    input: &mut R,
    clock: &impl Clock,
    reader: Reader,
    list: &mut [usize; 192],
    out: &mut [u8],
) -> io::Result<usize>
    requires { 32768 ≤ length out.old }
    ensures replied { IfOk result (λ count. Replied (noted reader list.old) true count out.old out.new) }
    ensures known { IfOk result (λ count. RepliedTo (noted reader list.old) (R.remaining input.old) count out.old out.new) }
    ensures err { OnErr result (out.new ≡ out.old) }
{
    let mut piece = [0; 65536];
    let last = listen(input, clock, reader, &mut piece, list)?;
    Ok(respond(last, list, out))
}

// One write. After a passing failure it has taken nothing and not failed; a write that takes nothing has failed.
fn put_some<W: Write>(output: &mut W, clock: &impl Clock, text: &[u8]) -> io::Result<usize>
    ensures bound { WritesAtMost result text.now }
    ensures retried { IfErr result (λ e. Passing (error_kind e) → ⊥) }
    ensures bytes { WriteAppends (W.contents output.old) (W.contents output.new) result text.now }
{
    match output.write(text) {
        Ok(0) => Err(io::Error::from(ErrorKind::WriteZero)),
        Err(error) if is_passing(&error) => {
            pause(clock);
            Ok(0)
        }
        written => written,
    }
}

// Writes all of a text, in as many writes as it takes, or fails behind its first bytes. The tries are counted as above.
#[tactic(auto, using(crate::proofs::Bytes::written_none, crate::proofs::Bytes::written_more, crate::proofs::Bytes::written_all))]
fn put_all<W: Write>(output: &mut W, clock: &impl Clock, text: &[u8]) -> io::Result<()>
    ensures all { OnOk result (Appends (W.contents output.old) (W.contents output.new) text.now) }
    ensures front { (k : ℕ) × Appends (W.contents output.old) (W.contents output.new) (take k text.now) }
{
    let mut rest = text;
    for _ in 0..u64::MAX {
        if rest.is_empty() {
            return Ok(());
        }
        let count = put_some(output, clock, rest)?;
        rest = &rest[count..];
    }
    Err(gave_up())
}

// Reads the input, and writes the answer.
#[tactic(auto, using(desk_text::specs::Feeding::new_heard, crate::proofs::Bytes::all_written, crate::proofs::Bytes::front_written))]
fn run<R: Read, W: Write>(input: &mut R, output: &mut W, clock: &impl Clock) -> Result<(), Fault>
    ensures { Served result (R.remaining input.old) (W.contents output.old) (W.contents output.new) }
{
    let mut list = number_room();
    let mut out = [0; 32768];
    let count = reply(input, clock, Reader::new(), &mut list, &mut out).map_err(Fault::Unread)?;
    put_all(output, clock, &out[..count]).map_err(Fault::Unwritten)
}

fn main(rt: HostRuntime) -> ExitCode {
    let mut input = rt.stdin();
    let mut output = rt.stdout();
    match run(&mut input, &mut output, &rt) {
        Ok(()) => ExitCode::SUCCESS,
        Err(fault) => {
            let _ = eprintln!(rt; "desk: {fault}");
            ExitCode::FAILURE
        }
    }
}
