// The rules that steps are run with.
ghost use Rattle.std.specs.Prelude.{◌≡◌, ℕ, ◌≤◌, ◌<◌, length, get_or};

// The reaches and the greatest length.
#[derive(Clone, Copy, PartialEq, Eq)]
pub struct SearchCfg {
    pub dup_max: usize,
    pub swap_max: usize,
    pub max_len: usize,
}

// Rules that were accepted: no window is longer than the packed one, and each key that fits has a kind.
#[derive(Clone, Copy)]
pub struct Rules<'a> {
    pub cfg: SearchCfg,
    pub kinds: &'a [u8],
    ghost short: { cfg.max_len ≤ 21 },
    ghost keyed: { length kinds.now ≡ 64 },
}

// The rules as a call gives them, not yet accepted: the reaches and the greatest length, how many items lie beneath the window, and the kinds.
// Each call names the fields: a constructor would take the numbers in a row, unnamed.
#[derive(Clone, Copy)]
pub struct Given<'a> {
    pub cfg: SearchCfg,
    pub beneath: usize,
    pub kinds: &'a [u8],
}

// What a planning is given: two windows of at most 21 keys below 64, the rules and the prices.
#[derive(Clone, Copy)]
pub struct Task<'a> {
    pub start: &'a [u8],
    pub goal: &'a [u8],
    pub rules: Rules<'a>,
    pub prices: &'a [u32],
    ghost start_short: { length start.now ≤ 21 },
    ghost start_keys: { (i : ℕ) → i < length start.now → get_or start.now i 0 < 64 },
    ghost goal_short: { length goal.now ≤ 21 },
    ghost goal_keys: { (i : ℕ) → i < length goal.now → get_or goal.now i 0 < 64 },
}
