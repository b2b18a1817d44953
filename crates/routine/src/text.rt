// The steps of a body.
ghost use Rattle.std.specs.Prelude.{◌≡◌, ◌<◌, ◌≤◌, length};

mod reading;

pub(crate) use reading::{measure, read_text, step_in};
use steps::step::Step;

// 1 to 256 steps, in the first places of an array. Nothing is said of how they hang together.
// An array with a count, since a routine is `Copy`, which its callers may use and an `ArrayVec` is not; there is no heap.
// `long` is a field, since lemmas about texts know of one only what its fields say.
#[derive(Clone, Copy)]
pub(crate) struct Text {
    steps: [Step; 256],
    count: u16,
    ghost some: { 0 < count },
    ghost few: { count ≤ 256 },
    ghost long: { length steps ≡ 256 },
}
