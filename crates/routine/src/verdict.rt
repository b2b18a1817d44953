// The verdict on a claim.
ghost use Rattle.std.specs.Prelude.{◌≡◌};
ghost use Rattle.routine.specs.Numbers.{number_of};

// What becomes of the claim that a check may be left out.
#[derive(Clone, Copy, PartialEq, Eq, Debug)]
pub enum Verdict {
    // No bare path leads to the check.
    LeftOut = 1,
    // There is no check.
    NoCheck = 2,
    // A path leads from an unsure setting of the value to the check, and no step of it checks the value before.
    BarePath = 3,
}

// The number of a verdict.
impl From<Verdict> for u8 {
    ghost from_gives = { λ verdict n. n ≡ number_of verdict };

    fn from(verdict: Verdict) -> u8 {
        verdict as u8
    }
}
