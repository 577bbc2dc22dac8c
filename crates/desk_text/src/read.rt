// Reading the desk's input, byte by byte and in pieces of any length.
ghost use Rattle.std.specs.Prelude.{◌≡◌, ◌==◌, ◌<◌, ◌≤◌, Some, unwrap_or, map, length, take};
ghost use Rattle.std.specs.List.{prefix_len};
ghost use Rattle.desk_text.specs.Question.{limits_of, key_of, question_of, read_as};
ghost use Rattle.std.specs.Option.{ForSome};
ghost use Rattle.desk_text.specs.Machine.{no_numbers};

use std::marker::Model;

// The first line: the six numbers of the planner's `SearchCfg` and `Allowances`. The desk's text stands on the costs alone, and those would put
// the whole engine below it.
#[derive(Clone, Copy, PartialEq, Eq)]
pub struct Limits {
    pub dup_max: usize,
    pub swap_max: usize,
    pub max_len: usize,
    pub max_expansions: usize,
    pub states_without: usize,
    pub states_with: usize,
}

// The bytes of a line's keys, at most 64. The places behind them are 0, so that keys are equal where their fields are.
#[derive(Clone, Copy, PartialEq, Eq)]
pub struct Keys {
    bytes: [u8; 64],
    count: usize,
}

impl Model for Keys {
    ghost use Rattle.std.specs.Prelude.{◌≡◌, ℕ, ◌≤◌, List, length, take};
    ghost use Rattle.std.proofs.Common.{sym, arith, length-take-le};
    ghost use Rattle.desk_text.specs.Padded.{padded};

    ghost Value = { List ℕ };

    ghost view = { λ k. take k.count k.bytes };

    ghost invariant = { λ k. (k.count ≤ 64) × (length k.bytes ≡ 64) × (k.bytes ≡ padded (take k.count k.bytes)) };

    ghost inverse = { λ ks. record { bytes = padded ks; count = length ks } };

    ghost inverse_ok = { λ k h i. record { bytes = sym h.2 i; count = length-take-le k.count k.bytes (omega (arith, h.0, h.1)) i } };
}

impl Keys {
    // The keys' bytes.
    pub fn as_slice(&self) -> &[u8]
        ensures value { result.now ≡ self.now }
        ensures fits { length result.now ≤ 64 }
    {
        &self.bytes[..self.count]
    }
}

// What the desk's input asks: the limits and the keys' bytes of start and goal.
#[derive(Clone, Copy, PartialEq, Eq)]
pub struct Question {
    pub limits: Limits,
    pub start: Keys,
    pub goal: Keys,
}

// The line that is read; `Done` once three lines have ended, `Lost` if the input is unreadable whatever follows.
#[derive(Clone, Copy, PartialEq, Eq)]
enum Line {
    First,
    Second,
    Third,
    Done,
    Lost,
}

// Where the reader stands after the bytes read so far. It is handed on at each byte, so it is 12 bytes; the numbers stand in a list
// that is lent, 64 places to a line.
#[derive(Clone, Copy)]
pub struct Reader {
    // The value of the word's digits, if it has one.
    word: Option<u32>,
    // The line that is read.
    line: Line,
    // How many numbers of the line have ended.
    count: u8,
    // How many numbers the second line had.
    starts: u8,
    // Whether the line has a byte.
    begun: bool,
    ghost small: { ForSome word (λ value. value < 65537) },
    ghost within: { count ≤ 64 },
    ghost starts_within: { starts ≤ 64 },
}

// Room for the numbers of three lines.
#[tactic(auto, unfolding(crate::specs::Machine::no_numbers))]
pub fn number_room() -> [usize; 192]
    ensures { result ≡ no_numbers }
{
    [0; 192]
}

// The byte of a key.
pub fn key_byte(n: usize) -> u8
    ensures { result ≡ key_of n }
{
    u8::try_from(n).unwrap_or(255)
}

// The keys' bytes.
fn key_bytes(numbers: &[usize]) -> Keys
    requires { length numbers.now ≤ 64 }
    ensures { result ≡ map key_of numbers.now }
{
    let mut bytes = [0; 64];
    for (i, &n) in numbers.iter().enumerate() {
        bytes[i] = key_byte(n);
    }
    Keys {
        bytes,
        count: numbers.len(),
    }
}

// How many digits `0` stand at the front.
fn leading_zeros(bytes: &[u8]) -> usize
    ensures zeros { result ≡ prefix_len (λ b. b == 48) bytes.now }
    ensures within { result ≤ length bytes.now }
{
    bytes.iter().take_while(|&&b| b == b'0').count()
}

// The first line's limits in their order.
fn first_line(list: &[usize]) -> Limits
    requires { 6 ≤ length list.now }
    ensures { result ≡ limits_of (take 6 list.now) }
{
    Limits {
        dup_max: list[0],
        swap_max: list[1],
        max_len: list[2],
        max_expansions: list[3],
        states_without: list[4],
        states_with: list[5],
    }
}

impl Reader {
    ghost use Rattle.desk_text.specs.Noted.{line_of, noted, Leaves};
    ghost use Rattle.desk_text.specs.Machine.{fresh, lost, kept, word_ended, line_closed, line_fed, digit_fed, fed_byte, at_end};
    ghost use Rattle.desk_text.specs.Reader.{Fed, Idle, Settled, Finished};

    // Nothing is read yet.
    #[tactic(auto, unfolding(crate::specs::Machine::fresh))]
    pub fn new() -> Reader
        ensures { noted result no_numbers ≡ fresh }
    {
        Reader {
            word: None,
            line: Line::First,
            count: 0,
            starts: 0,
            begun: false,
        }
    }

    // The input is unreadable whatever follows.
    #[tactic(auto, unfolding(crate::specs::Machine::lost))]
    fn lost(mut self) -> Reader
        ensures { Leaves lost self result }
    {
        self.line = Line::Lost;
        self
    }

    // The word's value among the line's numbers.
    #[tactic(auto, unfolding(crate::specs::Machine::kept))]
    fn kept(mut self, value: u32, list: &mut [usize; 192]) -> Reader
        requires word { self.word ≡ Some value }
        requires room { (line_of self.line < 3) × (self.count < 64) }
        ensures { noted result list.new ≡ kept (noted self list.old) }
    {
        let at = 64 * self.line as usize + usize::from(self.count);
        list[at] = value as usize;
        self.word = None;
        self.count += 1;
        self.begun = true;
        self
    }

    // The word ends.
    #[tactic(auto, unfolding(crate::specs::Machine::word_ended))]
    fn word_ended(self, list: &mut [usize; 192]) -> Reader
        requires { line_of self.line < 3 }
        ensures { noted result list.new ≡ word_ended (noted self list.old) }
    {
        match self.word {
            Some(value) if self.count < 64 => self.kept(value, list),
            _ => self.lost(),
        }
    }

    // The line ends, its last word having ended.
    #[tactic(auto, unfolding(crate::specs::Machine::line_closed, crate::specs::Machine::first_closed, crate::specs::Machine::second_closed, crate::specs::Machine::third_closed))]
    fn line_closed(mut self) -> Reader
        ensures { Leaves line_closed self result }
    {
        match self.line {
            Line::First if self.count != 6 => return self.lost(),
            Line::First => {
                self.line = Line::Second;
                self.count = 0;
            }
            Line::Second => {
                self.line = Line::Third;
                self.starts = self.count;
                self.count = 0;
            }
            Line::Third => self.line = Line::Done,
            Line::Done | Line::Lost => return self,
        }
        self.begun = false;
        self
    }

    // A line feed.
    #[tactic(auto, unfolding(crate::specs::Machine::line_fed))]
    fn line_fed(self, list: &mut [usize; 192]) -> Reader
        requires { line_of self.line < 3 }
        ensures { noted result list.new ≡ line_fed (noted self list.old) }
    {
        if self.begun {
            return self.word_ended(list).line_closed();
        }
        self.line_closed()
    }

    // A digit.
    #[tactic(auto, unfolding(crate::specs::Machine::digit_fed, crate::specs::Machine::digit_kept, crate::specs::Grammar::is_digit))]
    fn digit_fed(mut self, b: u8) -> Reader
        requires { (48 ≤ b) × (b ≤ 57) }
        ensures { Leaves (digit_fed b) self result }
    {
        let value = 10 * self.word.unwrap_or(0) + u32::from(b - b'0');
        if 65536 < value {
            return self.lost();
        }
        self.word = Some(value);
        self.begun = true;
        self
    }

    // One byte more.
    #[tactic(auto, unfolding(crate::specs::Machine::fed_byte, crate::specs::Machine::digit_fed, crate::specs::Grammar::is_digit))]
    fn fed(self, b: u8, list: &mut [usize; 192]) -> Reader
        ensures { noted result list.new ≡ fed_byte (noted self list.old) b }
    {
        match (self.line, b) {
            (Line::Done | Line::Lost, _) => self,
            (_, b'\n') => self.line_fed(list),
            (_, b' ') => self.word_ended(list),
            (_, b'0'..=b'9') => self.digit_fed(b),
            _ => self.lost(),
        }
    }

    // What is left of the bytes behind those that change nothing. Only zeros make a readable input long, so they are passed at once.
    fn past_idle(self, bytes: &[u8]) -> &[u8]
        ensures { Idle bytes.now self result.now }
    {
        if self.begun && self.word == Some(0) {
            return &bytes[leading_zeros(bytes)..];
        }
        bytes
    }

    // A piece of the input more.
    #[tactic(auto, using(crate::specs::Feeding::sound_is), unfolding(crate::specs::Machine::fed_all))]
    pub fn feed(self, piece: &[u8], list: &mut [usize; 192]) -> Reader
        ensures { Fed piece.now (noted self list.old) (noted result list.new) }
    {
        let mut reader = self;
        let mut rest = piece;
        while let Some((&b, behind)) = rest.split_first() {
            reader = reader.fed(b, list);
            rest = reader.past_idle(behind);
        }
        reader
    }

    // Whether the answer is settled, so that whatever follows is passed over.
    #[tactic(auto, using(crate::specs::Feeding::passed))]
    pub fn is_settled(self) -> bool
        ensures { Settled self result }
    {
        matches!(self.line, Line::Done | Line::Lost)
    }

    // The end of the input ends a line that is not empty.
    #[tactic(auto, unfolding(crate::specs::Machine::at_end))]
    fn at_end(self, list: &mut [usize; 192]) -> Reader
        ensures { noted result list.new ≡ at_end (noted self list.old) }
    {
        if self.begun {
            self.fed(b'\n', list)
        } else {
            self
        }
    }

    // The end of the input: the question that it asked.
    pub fn finish(self, list: &mut [usize; 192]) -> Option<Question>
        ensures { Finished (noted self list.old) result }
    {
        let reader = self.at_end(list);
        if reader.line != Line::Done {
            return None;
        }
        let starts = usize::from(reader.starts);
        let goals = usize::from(reader.count);
        Some(Question {
            limits: first_line(list),
            start: key_bytes(&list[64..64 + starts]),
            goal: key_bytes(&list[128..128 + goals]),
        })
    }
}

// The question that a text asks.
pub fn read(text: &[u8]) -> Option<Question>
    ensures { result ≡ read_as (question_of text.now) }
{
    let mut list = number_room();
    let reader = Reader::new().feed(text, &mut list);
    reader.finish(&mut list)
}
