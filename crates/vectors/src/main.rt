// Replays a list of answers of the Rust, and of refusals, and says whether the calls answer the same.
#![tactic(auto)]

mod compare;
mod file;
mod rooms;

ghost use Rattle.std.specs.Prelude.{◌≡◌, ◌+◌, ◌<◌, ◌≤◌, length};
ghost use Rattle.vectors.specs.File.{IsPrefixLen};

use compare::{same_answer, same_count, same_fields, same_keys, same_steps};
use file::{
    Call, ENTRIES, FILE, Limits, NODES, OPEN, STEPS, Tag, count, field, limits_of, number, short,
};
use rooms::{cut, fill_result, fill_steps, fill_work, load_steps};
use star_swap::Written;
use std::fmt::{self, Display, Formatter};
use std::fs::File;
use std::io;
use std::io::Read;

// How many records are read, which differs first, if any does, and how many differ.
#[derive(Clone, Copy, Default)]
struct Tally {
    records: usize,
    first: Option<usize>,
    wrong: usize,
}

// The record that cannot be read, and the field that is said of it: the tag of the one that keeps it from being read, if that is why.
#[derive(Clone, Copy)]
struct Unreadable {
    record: usize,
    field: Option<usize>,
}

// The kinds and prices that a record passes.
#[derive(Clone, Copy)]
struct Tables<'a> {
    kinds: &'a [u8],
    prices: &'a [u32],
}

// Whether the planner, over lists of the lengths that the record says, answers as the record says and writes the record's steps alone.
// The lists stay four parameters, here and in the engine: the check lends no two fields of a struct behind a reference at once.
fn check_plan(
    rec: &[u8],
    tables: Tables<'_>,
    steps: &mut [u16],
    nodes: &mut [u64],
    heads: &mut [u64],
    list: &mut [u64],
) -> bool {
    let Limits { cfg, allowances } = limits_of(field(rec, Tag::Limits));
    let lent = field(rec, Tag::Lent);
    let s = cut(count(lent, 0), steps);
    let n = cut(count(lent, 4), nodes);
    let h = cut(count(lent, 8), heads);
    let l = cut(count(lent, 12), list);
    let steps = &mut steps[..s];
    fill_steps(steps);
    let r = planner::plan(
        field(rec, Tag::Start),
        field(rec, Tag::Goal),
        cfg.dup_max,
        cfg.swap_max,
        cfg.max_len,
        file::beneath_of(field(rec, Tag::Beneath)),
        allowances.max_expansions,
        allowances.states_without,
        allowances.states_with,
        tables.kinds,
        tables.prices,
        steps,
        &mut nodes[..n],
        &mut heads[..h],
        &mut list[..l],
    );
    same_answer(field(rec, Tag::Answer), r) && same_steps(field(rec, Tag::Plan), steps)
}

// Whether the popped keys of the record are written, and they alone. A record from before there were any says nothing of them.
fn same_popped(rec: &[u8], popped: &[u8]) -> bool {
    !file::has(rec, Tag::Popped) || same_keys(field(rec, Tag::Popped), popped)
}

// Whether replay answers as the record says and writes the record's end window and popped keys alone.
fn replay_as(rec: &[u8], kinds: &[u8], steps: &[u16], res: &mut [u8], popped: &mut [u8]) -> bool {
    let cfg = limits_of(field(rec, Tag::Limits)).cfg;
    fill_result(res);
    fill_result(popped);
    let r = replay::replay(
        field(rec, Tag::Start),
        steps,
        cfg.dup_max,
        cfg.swap_max,
        cfg.max_len,
        file::beneath_of(field(rec, Tag::Beneath)),
        kinds,
        res,
        popped,
    );
    let got = [r.refusal as usize, r.index, r.length, r.highest];
    same_fields(field(rec, Tag::Answer), &got)
        && same_keys(field(rec, Tag::Window), res)
        && same_popped(rec, popped)
}

fn check_replay(rec: &[u8], kinds: &[u8], steps: &[u16]) -> bool {
    let mut room = [0; STEPS];
    let mut keys = [0; STEPS];
    let n = cut(count(field(rec, Tag::Lent), 0), &room);
    let p = cut(file::places(field(rec, Tag::Places), steps.len()), &keys);
    replay_as(rec, kinds, steps, &mut room[..n], &mut keys[..p])
}

// Whether stepping back from the record's end window answers as the record says and writes the record's start alone.
fn rewind_as(rec: &[u8], kinds: &[u8], steps: &[u16], res: &mut [u8]) -> bool {
    let cfg = limits_of(field(rec, Tag::Limits)).cfg;
    fill_result(res);
    let r = rewind::rewind(
        field(rec, Tag::Start),
        steps,
        field(rec, Tag::Popped),
        cfg.dup_max,
        cfg.swap_max,
        cfg.max_len,
        file::beneath_of(field(rec, Tag::Beneath)),
        kinds,
        res,
    );
    let got = [r.refusal as usize, r.length];
    same_fields(field(rec, Tag::Answer), &got) && same_keys(field(rec, Tag::Window), res)
}

fn check_rewind(rec: &[u8], kinds: &[u8], steps: &[u16]) -> bool {
    let mut room = [0; STEPS];
    let n = cut(count(field(rec, Tag::Lent), 0), &room);
    rewind_as(rec, kinds, steps, &mut room[..n])
}

fn check_mark(rec: &[u8], tables: Tables<'_>, steps: &[u16]) -> bool {
    let cfg = limits_of(field(rec, Tag::Limits)).cfg;
    let ceiling = field(rec, Tag::Ceiling);
    let r = marking::mark(
        field(rec, Tag::Start),
        field(rec, Tag::Goal),
        steps,
        cfg.dup_max,
        cfg.swap_max,
        cfg.max_len,
        file::beneath_of(field(rec, Tag::Beneath)),
        tables.kinds,
        tables.prices,
        number(ceiling, 0),
        number(ceiling, 4),
    );
    let got = [r.refusal as usize, r.index, r.mark as usize, r.highest];
    same_fields(field(rec, Tag::Answer), &got)
}

fn check_pack(rec: &[u8]) -> bool {
    let r = window::pack(field(rec, Tag::Start));
    let low = r.lo as usize;
    let high = r.hi as usize;
    let got = [
        r.refusal as usize,
        low % 4294967296,
        low / 4294967296,
        high % 4294967296,
        high / 4294967296,
    ];
    same_fields(field(rec, Tag::Answer), &got)
}

// Star-swap or delete-tail, over a list of the length that the record says.
fn check_built<F: FnOnce(&[u8], &[u8], usize, &mut [u16]) -> Written>(
    rec: &[u8],
    build: F,
    list: &mut [u16],
) -> bool
    requires { F.IsAlwaysCallable build }
{
    let n = cut(count(field(rec, Tag::Lent), 0), list);
    let steps = &mut list[..n];
    fill_steps(steps);
    let swap_max = count(field(rec, Tag::Limits), 4);
    let r = build(
        field(rec, Tag::Start),
        field(rec, Tag::Goal),
        swap_max,
        steps,
    );
    same_count(field(rec, Tag::Answer), r.refusal, r.count)
        && same_steps(field(rec, Tag::Plan), steps)
}

// The steps that a record asks, over the first places of a list; how many.
fn asked(rec: &[u8], list: &mut [u16]) -> usize
    ensures { IsPrefixLen result list.new }
{
    let codes = field(rec, Tag::Asked);
    let n = cut(codes.len() / 2, list);
    load_steps(codes, &mut list[..n]);
    n
}

// Whether the call of a record answers as the record says.
fn check_record(
    bytes: &[u8],
    rec: &[u8],
    steps: &mut [u16],
    nodes: &mut [u64],
    heads: &mut [u64],
    list: &mut [u64],
) -> bool {
    let table = rooms::price_list(bytes, rec);
    let n = cut(file::passed(field(rec, Tag::Passed), 0, 196), &table);
    let kinds = file::kinds(bytes, rec);
    let tables = Tables {
        kinds,
        prices: &table[..n],
    };
    let Ok(call) = Call::try_from(usize::from(short(rec, 4))) else {
        return false;
    };
    match call {
        Call::Plan => check_plan(rec, tables, steps, nodes, heads, list),
        Call::Pack => check_pack(rec),
        Call::StarSwap => check_built(rec, star_swap::star_swap, steps),
        Call::DeleteTail => check_built(rec, builders::delete_tail, steps),
        Call::Replay => {
            let n = asked(rec, steps);
            check_replay(rec, kinds, &steps[..n])
        }
        Call::Mark => {
            let n = asked(rec, steps);
            check_mark(rec, tables, &steps[..n])
        }
        Call::Rewind => {
            let n = asked(rec, steps);
            check_rewind(rec, kinds, &steps[..n])
        }
    }
}

impl Tally {
    // One record more.
    fn noted(self, same: bool) -> Tally
        requires { (self.records < 4294967296) × (self.wrong ≤ self.records) }
        ensures { (result.records ≡ self.records + 1) × (result.wrong ≤ result.records) }
    {
        let records = self.records + 1;
        if same {
            return Tally { records, ..self };
        }
        Tally {
            records,
            first: self.first.or(Some(self.records)),
            wrong: self.wrong + 1,
        }
    }

    // The field that is said where bytes stand behind the last record.
    // As it has always been said: the index of the first record that differs less 1, and none where 257 divides that index.
    fn field_said(self) -> Option<usize> {
        self.first.filter(|first| first % 257 != 0)?.checked_sub(1)
    }
}

// The records from a place on, one after the other.
fn check_records(
    bytes: &[u8],
    from: usize,
    steps: &mut [u16],
    nodes: &mut [u64],
    heads: &mut [u64],
    list: &mut [u64],
) -> Result<Tally, Unreadable>
    requires { from ≤ length bytes.now }
{
    let mut at = from;
    let mut tally = Tally::default();
    for record in 0..count(bytes, 20) {
        let Some(rec) = file::record_at(bytes, at) else {
            let field = file::strange_at(bytes, at).map(usize::from);
            return Err(Unreadable { record, field });
        };
        tally = tally.noted(check_record(bytes, rec, steps, nodes, heads, list));
        at += rec.len();
    }
    if at != bytes.len() {
        return Err(Unreadable {
            record: tally.records,
            field: tally.field_said(),
        });
    }
    Ok(tally)
}

fn check_file(bytes: &[u8]) -> Result<Tally, Unreadable> {
    let mut steps = [0; STEPS];
    let mut nodes = [0; NODES];
    let mut heads = [0; ENTRIES];
    let mut list = [0; OPEN];
    fill_work(&mut nodes, 3);
    fill_work(&mut heads, 5);
    fill_work(&mut list, 7);
    let from = file::records_at(bytes).ok_or(Unreadable {
        record: 0,
        field: None,
    })?;
    check_records(bytes, from, &mut steps, &mut nodes, &mut heads, &mut list)
}

// How many records there are, or the first that differs and how many do.
impl Display for Tally {
    fn fmt<W: fmt::Write>(&self, f: &mut Formatter<W>) -> fmt::Result {
        let records = self.records;
        let wrong = self.wrong;
        match self.first {
            None => write!(f, "{records} vectors as expected"),
            Some(first) => write!(f, "record {first} differs, {wrong} of {records} differ"),
        }
    }
}

// Which record cannot be read, and which of its fields is not known, if that is why.
impl Display for Unreadable {
    fn fmt<W: fmt::Write>(&self, f: &mut Formatter<W>) -> fmt::Result {
        let record = self.record;
        match self.field {
            Some(field) => write!(
                f,
                "unreadable at record {record}: field {field} is not known or out of order"
            ),
            None => write!(f, "unreadable at record {record}"),
        }
    }
}

// Reads until the list is full, the file ends or a read fails, and says how many bytes stand in the list.
// No `io::copy`: it tries again where a read is interrupted, and asks for no more than 8,192 bytes at once.
fn read_full(file: &mut File, list: &mut [u8]) -> usize
    ensures { IsPrefixLen result list.new }
{
    let mut done = 0;
    while done < list.len() {
        let n = file.read(&mut list[done..]).unwrap_or(0);
        if n == 0 {
            break;
        }
        done += n;
    }
    done
}

fn main(rt: HostRuntime) -> io::Result<()> {
    let path = "vectors.bin";
    let mut file = match File::open(&rt, path) {
        Ok(file) => file,
        Err(error) => return eprintln!(rt; "{path}: {error}"),
    };
    let mut bytes = [0; FILE];
    let n = read_full(&mut file, &mut bytes);
    drop(file);
    match check_file(&bytes[..n]) {
        Ok(tally) => println!(rt; "{tally}"),
        Err(unreadable) => println!(rt; "{unreadable}"),
    }
}
