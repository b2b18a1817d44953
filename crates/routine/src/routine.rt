// Accepted routines.
ghost use Rattle.std.specs.Prelude.{◌≡◌, ℕ, true, take};
ghost use Rattle.routine.specs.Graph.{nexts_inside};

mod asking;
mod judging;
mod reading;

use crate::text::Text;

// A text that the rules accept. Every next step of a step is one of the routine, so that a run need not look.
#[derive(Clone, Copy)]
pub struct Routine {
    text: Text,
    ghost inside: { (i : ℕ) → nexts_inside (take text.count text.steps) i ≡ true },
}
