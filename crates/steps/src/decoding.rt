// Steps from their bytes.
ghost use Rattle.std.specs.Prelude.{◌≡◌, Decides};
ghost use Rattle.steps.specs.Format.{Spells, Decoded};
ghost use Rattle.store.specs.Scalars.{scalar_of};
ghost use Rattle.steps.specs.Decoding.{operand_of, fields_at, step_of};

use crate::code::Code;
use crate::fields::Fields;
use crate::step::{Operand, Step};
use little_endian::{byte_at, u16_at, u32_at};
use store::scalars::Scalar;

impl Operand {
    // The operand of a form; none where the form is 0, or not a form.
    fn from_form(form: u8, bits: u32) -> Option<Operand>
        ensures { result ≡ operand_of form bits }
    {
        match form {
            1 => Some(Operand::Value(bits)),
            2 => Some(Operand::Literal(bits)),
            _ => None,
        }
    }
}

impl Fields {
    #[tactic(auto, unfolding(crate::specs::Decoding::fields_at))]
    fn read(bytes: &[u8]) -> Fields
        ensures { result ≡ fields_at bytes.now }
    {
        let forms = byte_at(bytes, 3);
        Fields {
            code: byte_at(bytes, 0),
            letter: byte_at(bytes, 1),
            value: byte_at(bytes, 2),
            a: Operand::from_form(forms % 16, u32_at(bytes, 4)),
            b: Operand::from_form(forms / 16, u32_at(bytes, 8)),
            first: u16_at(bytes, 12),
            second: u16_at(bytes, 14),
        }
    }

    // The type that the letter stands for.
    fn scalar(self) -> Option<Scalar>
        ensures { result ≡ scalar_of self.letter }
    {
        Scalar::from_letter(self.letter)
    }

    // The step that the fields name. Fields that it does not use are not looked at.
    fn step(self) -> Option<Step>
        ensures { result ≡ step_of self }
    {
        let value = self.value;
        let step = match Code::try_from(self.code).ok()? {
            Code::Stop => Step::Stop,
            Code::Set => Step::Set {
                scalar: self.scalar()?,
                value,
                literal: self.a?.literal()?,
            },
            Code::Copy => Step::Copy {
                scalar: self.scalar()?,
                value,
                from: self.a?.value()?,
            },
            Code::Compute(operation) => Step::Compute {
                operation,
                scalar: self.scalar()?,
                value,
                a: self.a?,
                b: self.b?,
            },
            Code::Compare(comparison) => Step::Compare {
                comparison,
                scalar: self.scalar()?,
                value,
                a: self.a?,
                b: self.b?,
            },
            Code::Load => Step::Load {
                scalar: self.scalar()?,
                value,
                address: self.a?,
            },
            Code::Store => Step::Store {
                scalar: self.scalar()?,
                address: self.a?,
                stored: self.b?,
            },
            Code::Offset => Step::Offset {
                value,
                base: self.a?,
                by: self.b?,
            },
            Code::Retype => Step::Retype {
                scalar: self.scalar()?,
                value,
                from: self.a?.value()?,
            },
            Code::Resize => Step::Resize {
                scalar: self.scalar()?,
                value,
                from: self.a?.value()?,
            },
            Code::Jump => Step::Jump { to: self.first },
            Code::Branch => Step::Branch {
                condition: self.a?,
                nonzero: self.first,
                zero: self.second,
            },
        };
        Some(step)
    }
}

impl Step {
    // Whether the bytes are those of the step, which is well formed.
    fn is_spelled(self, bytes: &[u8]) -> bool
        ensures { Decides result (Spells bytes.now self) }
    {
        self.is_formed() && self.encode().as_slice() == bytes
    }
}

// The step that the bytes spell, and none where they spell no well-formed step.
// A step has one encoding: fields that it does not use, or a length other than 16, show where it is written again.
pub fn decode(bytes: &[u8]) -> Option<Step>
    ensures { Decoded bytes.now result }
{
    Fields::read(bytes)
        .step()
        .filter(|step| step.is_spelled(bytes))
}
