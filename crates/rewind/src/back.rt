// Where the walk back is.
ghost use Rattle.window.specs.Keys.{Window};
ghost use Rattle.window.specs.Pack.{Keys};
ghost use Rattle.window.specs.Props.{keys_prop, window_prop};

use window::PackedState;

// The window there, and the popped keys that are not yet put back, in the order in which they were popped.
#[derive(Clone, Copy)]
pub struct Back<'a> {
    pub state: PackedState,
    pub left: &'a [u8],
    ghost held: { Window state } by { window_prop state },
    ghost keyed: { Keys 6 left.now } by { keys_prop 6 left.now },
}
