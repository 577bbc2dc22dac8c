// The plan that a builder gave.
ghost use Rattle.std.specs.Prelude.{◌≤◌};

// The builder that a plan is of.
#[derive(Clone, Copy, PartialEq, Eq)]
pub enum Origin {
    DeleteTail,
    DupAndStar,
}

// The plan in hand: the builder that it is of, and how many steps of the list it is.
#[derive(Clone, Copy, PartialEq, Eq)]
pub struct Plan {
    pub origin: Origin,
    pub count: usize,
    ghost few: { count ≤ 128 },
}
