// A table of desk inputs, run through the desk's answer and compared byte by byte.
//
// The table is the standard input, up to 65,536 bytes. A case is `name|input|expected|`, with a line feed before the next; in an input a `*` stands for
// 1,000 digits `0`. The program writes how many inputs were answered as expected, or the index and the name of the first that was not.
#![tactic(auto)]

ghost use Rattle.std.specs.Prelude.{◌≡◌, ◌+◌, ◌<◌, ◌≤◌, length, IfSome};

use desk_answer::answer;
use std::io::{self, Read};

// A case of the table.
#[derive(Clone, Copy)]
struct Case<'a> {
    name: &'a [u8],
    input: &'a [u8],
    expected: &'a [u8],
}

// What stands in front of the first bar of a table, and what stands behind it.
fn field(table: &[u8]) -> Option<(&[u8], &[u8])>
    ensures { IfSome result (λ parts. length parts.1.now < length table.now) }
{
    let bar = table.iter().position(|&b| b == b'|')?;
    Some((&table[..bar], &table[bar + 1..]))
}

// The first case of a table, if it is whole, and what stands behind it.
fn first_case(table: &[u8]) -> Option<(Case<'_>, &[u8])>
    ensures { IfSome result (λ parts. length parts.1.now < length table.now) }
{
    let (name, rest) = field(table)?;
    let (input, rest) = field(rest)?;
    let (expected, rest) = field(rest)?;
    Some((
        Case {
            name,
            input,
            expected,
        },
        rest,
    ))
}

// Bytes at the front of the room, as far as there is room; how many.
fn put(bytes: &[u8], room: &mut [u8]) -> usize
    ensures { (result ≤ length room.old) × (length room.new ≡ length room.old) }
{
    let n = bytes.len().min(room.len());
    room[..n].copy_from_slice(&bytes[..n]);
    n
}

// A case's input written out, as far as there is room; how many bytes.
// Into a list of the caller's: one handed back by value would be copied for each case.
fn write_out(input: &[u8], text: &mut [u8]) -> usize
    ensures { result ≤ length text.new }
{
    let mut done = 0;
    for (i, run) in input.split(|&b| b == b'*').enumerate() {
        if 0 < i {
            done += put(&[b'0'; 1000], &mut text[done..]);
        }
        done += put(run, &mut text[done..]);
    }
    done
}

impl Case<'_> {
    // Whether the desk's answer to the input is the expected text.
    fn is_right(self) -> bool {
        // Both lists stand before the first call: made behind it, the second would be cleared twice.
        let mut text = [0; 65536];
        let mut out = [0; 32768];
        let n = write_out(self.input, &mut text);
        let count = answer(&text[..n], &mut out);
        &out[..count] == self.expected
    }
}

// Runs the cases of a table.
fn run(rt: &impl Print, table: &[u8]) -> io::Result<()> {
    if table.is_empty() {
        return println!(rt; "no table");
    }
    // Cases are cut from the table one by one, so their number is counted.
    let mut count = 0usize;
    let mut rest = table;
    while let Some((case, behind)) = first_case(rest) {
        if !case.is_right() {
            print!(rt; "differs at index {count}")?;
            rt.write_all(case.name)?;
            return println!(rt; "");
        }
        count += 1;
        rest = behind;
    }
    println!(rt; "{count} desk inputs as expected")
}

// Reads until the list is full, the input ends or a read fails, and says how many bytes stand in the list.
// No `io::copy`: it tries again where a read is interrupted, and asks for no more than 8,192 bytes at once.
fn read_full<R: Read>(input: &mut R, list: &mut [u8]) -> usize
    ensures { result ≤ length list.new }
{
    let mut done = 0;
    while done < list.len() {
        let n = input.read(&mut list[done..]).unwrap_or(0);
        if n == 0 {
            break;
        }
        done += n;
    }
    done
}

fn main(rt: HostRuntime) -> io::Result<()> {
    let mut table = [0; 65536];
    let n = read_full(&mut rt.stdin(), &mut table);
    run(&rt, &table[..n])
}
