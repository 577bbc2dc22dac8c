// Costs, stack steps, the price list, the checks of the two tables, and why a call refuses its input.
#![tactic(auto)]

ghost use Rattle.std.specs.Prelude.{◌≡◌, ◌≤◌, Bool, false, ◌||◌, Option, Some, get_or, length};
ghost use Rattle.std.specs.Result.{result_ok};
ghost use Rattle.std.specs.Fn.{FnReturnsAt};
ghost use Rattle.std.specs.List.{filter, fold};
ghost use Rattle.costs.specs.Cost.{none, plus, no_more};
ghost use Rattle.costs.specs.Step.{decoded, code_of, pair_of};
ghost use Rattle.costs.specs.Kind.{kind_of};
ghost use Rattle.costs.specs.Table.{any_over, kinds_fault, prices_fault, Tests};
ghost use Rattle.costs.specs.declared.Step.{Step};
ghost use Rattle.costs.specs.Price.{price_of, cost_for_steps};
ghost use Rattle.costs.specs.Sum.{Gives, add_price};
ghost use Rattle.costs.specs.Packed.{cost_of};
ghost use Rattle.costs.specs.Refusal.{number_of, place_of};

// A cost. Costs compare by gas, then bytes.
#[derive(Clone, Copy, PartialEq, Eq, PartialOrd, Ord)]
pub struct Cost {
    pub gas: u32,
    pub bytes: u32,
}

// A step. `Pop` fills the places of an `ArrayVec` that hold none.
#[derive(Clone, Copy, PartialEq, Eq, Default)]
pub enum Step {
    #[default]
    Pop,
    Dup(u8),
    Swap(u8),
    PushImm(u8),
    LoadVal(u8),
}

// A step code that stands for no step.
#[derive(Clone, Copy, PartialEq, Eq)]
pub struct UnknownCode(pub u16);

// What a key is, as the table of kinds numbers it: 0, 1, 2.
#[derive(Clone, Copy, PartialEq, Eq)]
pub enum Kind {
    Value,
    Immediate,
    Zero,
}

// Why a call refuses its input, in the order of document 01's numbers from 1 on. A step that is not allowed has its index.
#[derive(Clone, Copy, PartialEq, Eq)]
pub enum Refusal {
    Reach,
    Window,
    Allowance,
    Table,
    Key,
    Length,
    ShortList,
    Step(usize),
    Swaps,
    Tail,
    Start,
    Stack,
}

impl Cost {
    pub fn zero() -> Cost
        ensures { result ≡ none }
    {
        Cost { gas: 0, bytes: 0 }
    }

    #[tactic(auto, unfolding(crate::specs::Cost::plus))]
    // The sum, each part up to the greatest u32.
    pub fn saturating_add(self, rhs: Cost) -> Cost
        ensures { result ≡ plus self rhs }
    {
        Cost {
            gas: self.gas.saturating_add(rhs.gas),
            bytes: self.bytes.saturating_add(rhs.bytes),
        }
    }

    // Whether the cost is no more than another: the derived order, under document 01's word.
    #[tactic(auto, unfolding(crate::specs::Cost::no_more))]
    pub fn no_more(self, other: Cost) -> bool
        ensures { result ≡ no_more self other }
    {
        self <= other
    }
}

// The cost as a number of the work lists.
impl From<Cost> for u64 {
    ghost from_gives = { λ cost number. cost_of number ≡ cost };

    #[tactic(auto, unfolding(crate::specs::Packed::cost_of))]
    fn from(cost: Cost) -> u64 {
        let gas = u64::from(cost.gas);
        let bytes = u64::from(cost.bytes);
        gas * 4294967296 + bytes
    }
}

// The cost that a number of the work lists stands for.
impl From<u64> for Cost {
    ghost from_gives = { λ number cost. cost ≡ cost_of number };

    #[tactic(auto, unfolding(crate::specs::Packed::cost_of))]
    fn from(number: u64) -> Cost {
        Cost {
            gas: (number / 4294967296) as u32,
            bytes: (number % 4294967296) as u32,
        }
    }
}

// The step that a code stands for: kind times 256 plus operand.
impl TryFrom<u16> for Step {
    type Error = UnknownCode;

    ghost try_from_gives = { λ code step. result_ok step ≡ decoded code };

    #[tactic(auto, unfolding(crate::specs::Step::decoded))]
    fn try_from(code: u16) -> Result<Step, UnknownCode> {
        // A Pop first, by a comparison: a jump by kind is dear where Pops and other steps alternate.
        if code == 0 {
            return Ok(Step::Pop);
        }
        let operand = (code % 256) as u8;
        match code / 256 {
            1 => Ok(Step::Dup(operand)),
            2 => Ok(Step::Swap(operand)),
            3 => Ok(Step::PushImm(operand)),
            4 => Ok(Step::LoadVal(operand)),
            _ => Err(UnknownCode(code)),
        }
    }
}

// The code of a step, which stands for the step.
impl From<Step> for u16 {
    ghost from_gives = { λ step code. (code ≡ code_of step) × (decoded code ≡ Some step) };

    #[tactic(auto, unfolding(crate::specs::Step::decoded))]
    fn from(step: Step) -> u16 {
        match step {
            Step::Pop => 0,
            Step::Dup(p) => 256 + u16::from(p),
            Step::Swap(d) => 512 + u16::from(d),
            Step::PushImm(k) => 768 + u16::from(k),
            Step::LoadVal(k) => 1024 + u16::from(k),
        }
    }
}

// The number of a kind.
impl From<Kind> for u8 {
    ghost from_gives = { λ kind number. number ≡ kind_of kind };

    fn from(kind: Kind) -> u8 {
        match kind {
            Kind::Value => 0,
            Kind::Immediate => 1,
            Kind::Zero => 2,
        }
    }
}

impl Refusal {
    // Its number in document 01.
    // Two numbers come of a refusal, so neither is its `From`.
    pub fn number(self) -> u32
        ensures { result ≡ number_of self }
    {
        match self {
            Refusal::Reach => 1,
            Refusal::Window => 2,
            Refusal::Allowance => 3,
            Refusal::Table => 4,
            Refusal::Key => 5,
            Refusal::Length => 6,
            Refusal::ShortList => 7,
            Refusal::Step(_) => 8,
            Refusal::Swaps => 9,
            Refusal::Tail => 10,
            Refusal::Start => 11,
            Refusal::Stack => 12,
        }
    }

    // The index of a step that is not allowed, 0 of any other.
    pub fn index(self) -> usize
        ensures { result ≡ place_of self }
    {
        match self {
            Refusal::Step(at) => at,
            _ => 0,
        }
    }
}

// Whether some entry of a list passes a test. All are looked at, since `any` branches at each entry.
fn any_entry<T: Copy, F: Fn(T) -> bool>(list: &[T], test: F) -> bool
    ghost f: { T → Bool }
    requires { Tests (F.pre test) (F.post test) f }
    ensures { result ≡ fold (λ any x. any || f x) false list.now }
{
    let mut any = false;
    for &entry in list {
        any |= test(entry);
    }
    any
}

// Whether some byte of the list is over the limit.
pub fn any_over(list: &[u8], limit: u8) -> bool
    ensures { result ≡ any_over limit list.now }
{
    any_entry(list, |byte| limit < byte)
}

// How many entries of a list, bytes or step codes, are k. A sum, since `filter` branches at each entry.
pub fn count_of<T: PartialEq>(list: &[T], k: &T) -> usize
    ensures { result ≡ length (filter (λ x. T.eq x k.now) list.now) }
{
    let mut n = 0;
    for entry in list {
        n += usize::from(entry == k);
    }
    n
}

// The same of a short list, counted in a byte: a vector holds eight times as many bytes as lengths.
pub fn count_few<T: PartialEq>(list: &[T], k: &T) -> u8
    requires { length list.now ≤ 255 }
    ensures { result ≡ length (filter (λ x. T.eq x k.now) list.now) }
{
    let mut n: u8 = 0;
    for entry in list {
        n += u8::from(entry == k);
    }
    n
}

// Refusal 4, of the kinds.
#[tactic(auto, unfolding(crate::specs::Table::kinds_fault), using(crate::specs::Laws::count_of_filter))]
pub fn kinds_fault(kinds: &[u8]) -> bool
    ensures { result ≡ kinds_fault kinds.now }
{
    kinds.len() != 64 || any_over(kinds, 2) || 1 < count_few(kinds, &u8::from(Kind::Zero))
}

// Refusal 4, of the prices.
#[tactic(auto, unfolding(crate::specs::Table::prices_fault))]
pub fn prices_fault(prices: &[u32]) -> bool
    ensures { result ≡ prices_fault prices.now }
{
    prices.len() != 196 || any_entry(prices, |price| 30000 < price)
}

// The number at a place of the price list, and 0 past its end.
// One call of the library, as in vectors' `byte`.
fn price_at(prices: &[u32], i: usize) -> u32
    ensures { result ≡ get_or prices.now i 0 }
{
    prices.get(i).copied().unwrap_or(0)
}

// The place of a step's pair in the price list.
fn pair_of(step: Step) -> usize
    ensures { (result ≡ pair_of step) × (result ≤ 289) }
{
    match step {
        Step::Pop => 0,
        Step::Dup(p) => 1 + p as usize,
        Step::Swap(d) => 17 + d as usize,
        Step::PushImm(k) | Step::LoadVal(k) => 34 + k as usize,
    }
}

// The listed price of a step; what is no step costs nothing.
pub fn price_of(prices: &[u32], step: Option<Step>) -> Cost
    ensures { result ≡ price_of prices.now step }
{
    let Some(step) = step else {
        return Cost::zero();
    };
    let i = pair_of(step);
    Cost {
        gas: price_at(prices, 2 * i),
        bytes: price_at(prices, 2 * i + 1),
    }
}

// The sum of the listed prices of the steps that a list's entries stand for, onto a sum so far.
pub fn sum_of_prices<T, F: Fn(&T) -> Option<Step>>(
    prices: &[u32],
    from: Cost,
    list: &[T],
    step: F,
) -> Cost
    requires { F.IsAlwaysCallable step }
    ensures { (f : T → Option Step) → Gives (FnReturnsAt F.Fn step) f → result ≡ fold (add_price prices.now f) from list.now }
{
    let mut sum = from;
    for entry in list {
        sum = sum.saturating_add(price_of(prices, step(entry)));
    }
    sum
}

// The sum of the listed prices of the steps.
pub fn cost_for_steps(steps: &[u16], prices: &[u32]) -> Cost
    ensures { result ≡ cost_for_steps prices.now steps.now }
{
    sum_of_prices(
        prices,
        Cost::zero(),
        steps,
        |&code| Step::try_from(code).ok(),
    )
}
