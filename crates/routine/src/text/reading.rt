// Texts from bodies.
ghost use Rattle.std.specs.Prelude.{◌≡◌, ◌<◌, ◌≤◌, length, MatchResult};
ghost use Rattle.refusal.specs.declared.Rule.TheVariants.{RoutineLength as RoutineLengthRule};
ghost use Rattle.first.specs.First.{Nowhere};
ghost use Rattle.steps.specs.Format.{Spells, Decoded};
ghost use Rattle.routine.specs.Flow.{step_at};
ghost use Rattle.routine.specs.Body.{count_of, Measured, part, Written};
ghost use Rattle.routine.specs.Rules.{Malformed};
ghost use Rattle.routine.specs.Text.{text_of};

use crate::text::Text;
use first::place_count;
use refusal::{Refusal, Rule};
use steps::decode;
use steps::step::Step;

// The bytes of a step.
const STEP: usize = 16;

impl Text {
    #[tactic(auto, using(crate::proofs::Texts::text_length))]
    pub(crate) fn len(&self) -> u32
        ensures count { result ≡ length (text_of self.now) }
        ensures few { result ≤ 256 }
    {
        self.count as u32
    }

    // Step `i`; past the last, a stop.
    #[tactic(auto, using(crate::proofs::Texts::text_length, crate::proofs::Texts::text_step, crate::proofs::Texts::step_past))]
    pub(crate) fn step(&self, i: u32) -> Step
        ensures { result ≡ step_at (text_of self.now) i }
    {
        if i < self.count as u32 {
            self.steps[i as usize]
        } else {
            Step::Stop
        }
    }
}

// The number of steps that a body has, or the refusal of its length.
pub(crate) fn measure(body: &[u8]) -> Result<u16, Refusal>
    ensures { MatchResult result (λ n. Measured body.now × (n ≡ count_of body.now)) (λ e. (Measured body.now → ⊥) × (e ≡ (RoutineLengthRule, 0))) }
{
    match place_count(body.len(), 0, STEP, 256) {
        Some(count) => Ok(count as u16),
        None => Err((Rule::RoutineLength, 0)),
    }
}

// Step `i` of a body, and none where its bytes, or what there is of them, are not those of a well-formed step.
pub(crate) fn step_in(body: &[u8], i: usize) -> Option<Step>
    ensures { Decoded (part body.now i) result }
{
    if body.len() / STEP <= i {
        return None;
    }
    let start = STEP * i;
    decode(&body[start..start + STEP])
}

// Step `i` of a body, where it is well formed.
fn formed_step(body: &[u8], i: usize) -> Step
    ensures { (Malformed body.now i → ⊥) → Spells (part body.now i) result }
{
    step_in(body, i).unwrap_or(Step::Stop)
}

// The steps of a body whose steps are all well formed.
pub(crate) fn read_text(body: &[u8], count: u16) -> Text
    requires whole { Measured body.now }
    requires all { count ≡ count_of body.now }
    requires formed { Nowhere (Malformed body.now) count }
    ensures { Written body.now (text_of result) }
{
    // A loop over the steps that there are: `array::from_fn`, which was tried, takes twice the time on a short routine.
    let mut steps = [Step::Stop; 256];
    for i in 0..count {
        steps[i as usize] = formed_step(body, i as usize);
    }
    Text { steps, count }
}
