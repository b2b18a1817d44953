// The verdict on the claim that a check may be left out.
ghost use Rattle.std.specs.Prelude.{◌≡◌, ℕ, ◌<◌, length, Some, Decides};
ghost use Rattle.steps.specs.Tables.{checks as checks_of};
ghost use Rattle.first.specs.First.{Only};
ghost use Rattle.routine.specs.Claims.{checked_at, Unsure, Exposes, Judged, Answers};
ghost use Rattle.routine.specs.Flow.{step_at};
ghost use Rattle.routine.specs.Text.{steps_of};

use crate::flow::{Checkers, Flow, sets_value};
use crate::routine::Routine;
use crate::verdict::Verdict;
use refusal::Refusal;
use search::{Marks, NodeGuard, Searches};

impl Routine {
    fn is_unsure_setting(&self, step: u8, value: u32) -> bool
        ensures { Decides result (Unsure (steps_of self.now) value step) }
    {
        let step = self.text.step(step as u32);
        sets_value(step, value) && step.is_unsure()
    }

    // Whether step `from` is an unsure setting of the value, with a path from there to step `to` on which no step between checks the value.
    fn exposes(&self, from: u8, value: u32, to: u8, guard: &mut NodeGuard) -> bool
        ensures { Decides result (Exposes (steps_of self.now) value to from) }
    {
        if !self.is_unsure_setting(from, value) {
            return false;
        }
        let text = &self.text;
        guard.follow_unstopped(&Flow { text }, &Checkers { text, value }, from);
        guard.is_marked(to)
    }

    // Whether an unsure setting of the value has such a path to step `to`.
    fn is_exposed(&self, value: u32, to: u8, guard: &mut NodeGuard) -> bool
        ensures { Decides result ((i : ℕ) × Exposes (steps_of self.now) value to i) }
    {
        (0..self.text.len()).any(
            |from|
                requires { from < 256 }
                ensures { Decides result (Exposes (steps_of self.entry.now) value to from) }
            { self.exposes(from as u8, value, to, guard) },
        )
    }

    // Whether operand A of the step checks the value, so that the check in B of the same value comes after it.
    fn is_covered_by_a(&self, step: u8, operand: u8, value: u32) -> bool
        ensures { Decides result ((operand ≡ 1) × ((checks_of (step_at (steps_of self.now) step)).0 ≡ Some value)) }
    {
        operand == 1 && self.text.step(step as u32).checks().0 == Some(value)
    }

    // The verdict on a check of the value.
    fn judge(&self, step: u8, operand: u8, value: u32, guard: &mut NodeGuard) -> Verdict
        requires { checked_at (steps_of self.now) step operand ≡ Some value }
        ensures { Judged (steps_of self.now) step operand result }
    {
        if self.is_covered_by_a(step, operand, value) {
            return Verdict::LeftOut;
        }
        if self.is_exposed(value, step, guard) {
            Verdict::BarePath
        } else {
            Verdict::LeftOut
        }
    }

    // The verdict, found with a mark for each step.
    fn judged(&self, step: u16, operand: u8, guard: &mut NodeGuard) -> Verdict
        ensures { Only (Judged (steps_of self.now) step operand) result }
    {
        if step as u32 >= self.text.len() {
            return Verdict::NoCheck;
        }
        match self.checked(step, operand) {
            Some(value) => self.judge(step as u8, operand, value, guard),
            None => Verdict::NoCheck,
        }
    }

    // The verdict on the claim that the check in operand `operand`, 0 for A and 1 for B, of step `step` may be left out.
    // The operand comes as its number, since a claim may have any, and each gets a verdict.
    // It looks at the routine alone. Refused by 14 where the guard holds too few marks for the search.
    pub fn verdict(&self, step: u16, operand: u8, guard: &mut Marks) -> Result<Verdict, Refusal>
        ensures answer { Answers (steps_of self.now) step operand (length guard.old.all.now) result }
        ensures size { length guard.new.all.now ≡ length guard.old.all.now }
        ensures named { guard.new.all.ghost_name ≡ guard.old.all.ghost_name }
    {
        guard.search(&Claim {
            routine: self,
            step,
            operand,
        })
    }
}

// The claim on an operand of a step, whose verdict takes searches.
#[derive(Clone, Copy)]
struct Claim<'r> {
    routine: &'r Routine,
    step: u16,
    operand: u8,
}

impl Searches for Claim<'_> {
    type Answer = Verdict;

    ghost gives = { λ c. Only (Judged (steps_of c.routine.now) c.step c.operand) };

    fn answer(&self, guard: &mut NodeGuard) -> Verdict {
        self.routine.judged(self.step, self.operand, guard)
    }
}
