// Routines from bodies.
ghost use Rattle.std.specs.Prelude.{IfOk};
ghost use Rattle.first.specs.First.{Only, answer_of};
ghost use Rattle.routine.specs.Rules.{Accepted, Allowed, InOrder};
ghost use Rattle.routine.specs.Text.{text_of, steps_of};

use crate::routine::Routine;
use crate::rules::{Lacks, Malforms, SetsTwice, Strays, Unfits};
use crate::text::{Text, measure, read_text};
use first::try_rule;
use refusal::{Refusal, Rule};

// Each number over all steps before the next.
fn check(text: &Text) -> Result<(), Refusal>
    ensures { Only (InOrder (text_of text.now)) result }
{
    try_rule(Rule::SetOnce, &SetsTwice { text })?;
    try_rule(Rule::OperandType, &Unfits { text })?;
    try_rule(Rule::Target, &Strays { text })?;
    try_rule(Rule::SetBefore, &Lacks { text })
}

impl Routine {
    // The routine of a body, or the refusal 2 to 7.
    pub fn read(body: &[u8]) -> Result<Routine, Refusal>
        ensures answer { Only (Allowed body.now) (answer_of result) }
        ensures routine { IfOk result (λ t. Accepted body.now (steps_of t)) }
    {
        let count = measure(body)?;
        try_rule(Rule::StepForm, &Malforms { body, count })?;
        let text = read_text(body, count);
        check(&text)?;
        Ok(Routine { text })
    }
}
