// Packed windows: at most 21 keys of 6 bits, the top key lowest, and a marker bit above them, in two halves of 64 bits.
#![tactic(auto)]

ghost use Rattle.std.specs.Prelude.{◌≡◌, List, ◌∷◌, ◌++◌, ℕ, ◌+◌, ◌-◌, ◌*◌, ◌/◌, ◌%◌, ◌^◌, ◌≤◌, ◌<◌, length, get_or, set, drop, eqb, ltb, IfOk};
ghost use Rattle.window.specs.Pack.{Keys};
ghost use Rattle.window.specs.Packing.{packing, pack_refusal, packing_of};
ghost use Rattle.costs.specs.Refusal.{refusal_of};
ghost use Rattle.window.specs.State.{Held, whole, swapped};
ghost use Rattle.window.specs.Keys.{keys_of, Window};

use costs::Refusal;

// The state as an integer is hi * 2^64 + lo, so states compare as their fields do, in order. That it is of a window is no fact of the type:
// work lists are read as any two numbers, and the search knows of its own rows alone that they are windows.
#[derive(Clone, Copy, PartialEq, Eq, PartialOrd, Ord)]
pub struct PackedState {
    pub hi: u64,
    pub lo: u64,
}

// A word with the six bits from bit s on, which are old, replaced by new.
fn put_key(word: u64, s: u32, old: u64, new: u64) -> u64
    requires { (s ≤ 58) × (old ≡ word / 2 ^ s % 64) × (new < 64) }
    ensures { result + old * 2 ^ s ≡ word + new * 2 ^ s }
{
    word - (old << s) + (new << s)
}

// What packing answers: the number of a refusal or 0, and the two halves. Numbers, since C gets it.
#[repr(C)]
#[derive(Clone, Copy)]
pub struct Packing {
    pub refusal: u32,
    pub lo: u64,
    pub hi: u64,
}

// Beside a refusal both halves are zero.
impl From<Result<PackedState, Refusal>> for Packing {
    ghost from_gives = { λ answer packing. packing ≡ packing_of answer };

    fn from(answer: Result<PackedState, Refusal>) -> Packing {
        match answer {
            Ok(s) => Packing {
                refusal: 0,
                lo: s.lo,
                hi: s.hi,
            },
            Err(refusal) => Packing {
                refusal: refusal.number(),
                lo: 0,
                hi: 0,
            },
        }
    }
}

// The window of the keys, top first, as its low and its high 64 bits.
#[tactic(auto, unfolding(crate::specs::Packing::packing, crate::specs::State::whole))]
pub fn pack(ids: &[u8]) -> Packing
    ensures { result ≡ packing 6 21 ids.now }
{
    Packing::from(packed(ids))
}

// The window of the keys, or why there is none.
#[tactic(auto, unfolding(crate::specs::Packing::pack_refusal))]
fn packed(ids: &[u8]) -> Result<PackedState, Refusal>
    ensures refusal { refusal_of result ≡ pack_refusal 6 21 ids.now }
    ensures held { IfOk result (λ s. Held 6 s ids.now) }
{
    if costs::any_over(ids, 63) {
        return Err(Refusal::Key);
    }
    if 21 < ids.len() {
        return Err(Refusal::Length);
    }
    Ok(PackedState::from_ids(ids))
}

impl PackedState {
    // The window of the keys, the top first.
    pub fn from_ids(ids: &[u8]) -> PackedState
        requires { Keys 6 ids.now × (length ids.now ≤ 21) }
        ensures { Held 6 result ids.now }
    {
        let mut s = PackedState { hi: 0, lo: 1 };
        for &key in ids.iter().rev() {
            s = s.push(key);
        }
        s
    }

    // The keys in the window: the marker's place by sixes.
    pub fn len(self) -> usize
        requires { (xs : List ℕ) × Held 6 self xs }
        ensures { (xs : List ℕ) → Held 6 self xs → result ≡ length xs }
    {
        let hi = self.hi;
        let lo = self.lo;
        let mark = if hi > 0 {
            127 - u64::leading_zeros(hi)
        } else {
            63 - u64::leading_zeros(lo)
        };
        (mark / 6) as usize
    }

    // The 64 bits from bit s on.
    pub fn bits_at(self, s: u32) -> u64
        requires { (s < 128) × (self.hi < 2 ^ 63) }
        ensures { result ≡ whole self / 2 ^ s % 2 ^ 64 }
    {
        let hi = self.hi;
        let lo = self.lo;
        if s < 64 {
            (lo >> s) + ((hi * 2) << (63 - s))
        } else {
            hi >> (s - 64)
        }
    }

    // The key at idx.
    pub fn get(self, idx: usize) -> u8
        requires { (xs : List ℕ) × Held 6 self xs × (idx < length xs) }
        ensures { (xs : List ℕ) → Held 6 self xs → idx < length xs → result ≡ get_or xs idx 0 }
    {
        (self.bits_at((idx * 6) as u32) % 64) as u8
    }

    pub fn pop(self) -> PackedState
        requires { (k : ℕ) × ((xs : List ℕ) × Held 6 self (k ∷ xs)) }
        ensures { (k : ℕ) → (xs : List ℕ) → Held 6 self (k ∷ xs) → Held 6 result xs }
    {
        PackedState {
            hi: self.hi >> 6,
            lo: (self.lo >> 6) + (self.hi << 58),
        }
    }

    // The window with the key on top.
    // A key is a byte of a list that C lends and no type of its own, so that it is below 64 is asked.
    pub fn push(self, key: u8) -> PackedState
        requires { ((xs : List ℕ) × Held 6 self xs × (length xs < 21)) × (key < 64) }
        ensures { (xs : List ℕ) → Held 6 self xs → Held 6 result (key ∷ xs) }
    {
        PackedState {
            hi: self.hi * 64 + (self.lo >> 58),
            lo: (self.lo << 6) + (key as u64),
        }
    }

    // The window with the key at idx, which is was, replaced. The key is below 64 as in `push`, and in `set`.
    fn replace(mut self, idx: usize, was: u8, key: u8) -> PackedState
        requires { ((xs : List ℕ) × Held 6 self xs × (idx < length xs) × (was ≡ get_or xs idx 0)) × (key < 64) }
        ensures { (xs : List ℕ) → Held 6 self xs → idx < length xs → Held 6 result (set xs idx key) }
    {
        let hi = self.hi;
        let lo = self.lo;
        let old = was as u64;
        let new = key as u64;
        if idx < 10 {
            self.lo = put_key(lo, (idx * 6) as u32, old, new);
        } else if idx == 10 {
            self.lo = lo % 0x1000_0000_0000_0000 + ((new % 16) << 60);
            self.hi = hi / 4 * 4 + new / 16;
        } else {
            self.hi = put_key(hi, (idx * 6) as u32 - 64, old, new);
        }
        self
    }

    // The window with key at idx.
    pub fn set(self, idx: usize, key: u8) -> PackedState
        requires { ((xs : List ℕ) × Held 6 self xs × (idx < length xs)) × (key < 64) }
        ensures { (xs : List ℕ) → Held 6 self xs → idx < length xs → Held 6 result (set xs idx key) }
    {
        self.replace(idx, self.get(idx), key)
    }

    // The window with the keys at 0 and at depth exchanged.
    pub fn swap(self, depth: usize) -> PackedState
        requires { (xs : List ℕ) × Held 6 self xs × (depth < length xs) }
        ensures { (xs : List ℕ) → Held 6 self xs → depth < length xs → Held 6 result (swapped xs depth) }
    {
        let top = self.get(0);
        let other = self.get(depth);
        self.replace(0, top, other).replace(depth, other, top)
    }

    // The window with the key at pos once more on top.
    pub fn dup(self, pos: usize) -> PackedState
        requires { (xs : List ℕ) × Held 6 self xs × (pos < length xs) × (length xs < 21) }
        ensures { (xs : List ℕ) → Held 6 self xs → pos < length xs → Held 6 result (get_or xs pos 0 ∷ xs) }
    {
        self.push(self.get(pos))
    }

    // The keys, the top first, over the first places of a list; how many.
    pub fn write(self, out: &mut [u8]) -> usize
        requires { Window self × (length (keys_of self) ≤ length out.old) }
        ensures { (result ≡ length (keys_of self)) × (out.new ≡ keys_of self ++ drop (length (keys_of self)) out.old) }
    {
        let n = self.len();
        let mut s = self;
        for i in 0..n {
            out[i] = s.get(0);
            s = s.pop();
        }
        n
    }

    // Whether the two are the same state: the derived test, with a contract on whole states.
    #[tactic(auto, unfolding(crate::specs::State::whole))]
    pub fn same(self, other: PackedState) -> bool
        ensures { result ≡ eqb (whole self) (whole other) }
    {
        self == other
    }

    // Whether the state is less than the other, as integers: the derived order, with a contract on whole states.
    #[tactic(auto, unfolding(crate::specs::State::whole))]
    pub fn less(self, other: PackedState) -> bool
        ensures { result ≡ ltb (whole self) (whole other) }
    {
        self < other
    }
}
