// Questions about a routine.
ghost use Rattle.std.specs.Prelude.{◌≡◌, length};
ghost use Rattle.first.specs.First.{First};
ghost use Rattle.steps.specs.Tables.{unsure};
ghost use Rattle.routine.specs.Claims.{checked_in, checked_at};
ghost use Rattle.routine.specs.Flow.{step_at, asked, Sets, Typed};
ghost use Rattle.routine.specs.Text.{steps_of};

use crate::routine::Routine;
use crate::rules::Setting;
use first::first_bad;
use steps::step::Step;
use store::scalars::Scalar;

fn in_operand(checks: (Option<u32>, Option<u32>), operand: u8) -> Option<u32>
    ensures { result ≡ checked_in checks operand }
{
    match operand {
        0 => checks.0,
        1 => checks.1,
        _ => None,
    }
}

impl Routine {
    pub fn step_count(&self) -> u16
        ensures { result ≡ length (steps_of self.now) }
    {
        self.text.len() as u16
    }

    // Step `i`, and none past the last.
    pub fn step(&self, i: u16) -> Option<Step>
        ensures { result ≡ asked (steps_of self.now) i }
    {
        if (i as u32) < self.text.len() {
            Some(self.text.step(i as u32))
        } else {
            None
        }
    }

    // The value that a step checks in an operand, 0 for A and 1 for B, if there is a check.
    // The operand comes as its number, since a claim may have any.
    pub fn checked(&self, step: u16, operand: u8) -> Option<u32>
        ensures { result ≡ checked_at (steps_of self.now) step operand }
    {
        in_operand(self.text.step(step as u32).checks(), operand)
    }

    // Whether the step is a load or a copy.
    pub fn is_unsure(&self, step: u16) -> bool
        ensures { result ≡ unsure (step_at (steps_of self.now) step) }
    {
        self.text.step(step as u32).is_unsure()
    }

    // The step that sets a value: the only one, as the routine is accepted.
    pub fn setting(&self, value: u32) -> Option<u16>
        ensures { First (Sets (steps_of self.now) value) (length (steps_of self.now)) result }
    {
        let setting = Setting {
            text: &self.text,
            value,
            below: self.text.len(),
        };
        first_bad(&setting).map(|step| step as u16)
    }

    // The type of a value.
    pub fn value_type(&self, value: u32) -> Option<Scalar>
        ensures { Typed (steps_of self.now) value result }
    {
        let step = self.setting(value)?;
        let (_, scalar) = self.text.step(step as u32).sets()?;
        Some(scalar)
    }
}
