// A placing that is granted.
ghost use Rattle.std.specs.Prelude.{◌≡◌, ◌+◌, ◌<◌, ◌≤◌, true};
ghost use Rattle.store.specs.Cells.{fitting};

use crate::tags::Kind;

// The kind over `size` bytes from `start`. What the rule of stores asks of a placing is in its type.
#[derive(Clone, Copy)]
pub struct Placing {
    pub start: u32,
    pub kind: Kind,
    pub size: u8,
    ghost some: { 0 < size },
    ghost within: { start + size ≤ 4096 },
    ghost fits: { fitting kind size ≡ true },
}
