// The open areas: at most 32, in order of address, no two sharing a byte.
ghost use Rattle.std.specs.Prelude.{◌≡◌, ◌≤◌, true, length};
ghost use Rattle.areas.specs.Ordered.{ordered};

use crate::area::Area;
use arrayvec::ArrayVec;

mod calls;

// How many areas can be open.
const MOST: usize = 32;

#[derive(Drop)]
pub struct Areas {
    list: ArrayVec<Area, MOST>,
    ghost room: { length list.items ≤ 32 },
    ghost apart: { ordered list.items ≡ true },
}
