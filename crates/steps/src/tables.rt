// What each step has as operands, what it sets, and where it leads.
ghost use Rattle.std.specs.Prelude.{◌≡◌, Some};
ghost use Rattle.steps.specs.Types.{accepts as accepts_type, is_integral, is_word};
ghost use Rattle.steps.specs.Tables.{operands as operands_of, sets as set_by, unsure, targets as targets_of, terminator, nexts as nexts_of, uses as uses_of, used_in, checks as checks_of, checked_in, checked as checked_use, plain as plain_use};

use crate::step::{Operand, Step, Takes, Use};
use store::scalars::Scalar;
use store::tags::Kind;

// The types of the letters b, w and p.
pub const BYTE: Scalar = Scalar {
    kind: Kind::Integral,
    size: 1,
};

pub const WORD: Scalar = Scalar {
    kind: Kind::Integral,
    size: 4,
};

pub const POINTER: Scalar = Scalar {
    kind: Kind::Pointer,
    size: 4,
};

pub(crate) fn is_integral(scalar: Scalar) -> bool
    ensures { result ≡ is_integral scalar }
{
    scalar.kind == Kind::Integral
}

pub(crate) fn is_word(scalar: Scalar) -> bool
    ensures { result ≡ is_word scalar }
{
    scalar.size == POINTER.size
}

impl Use {
    // An operand whose kind the step leaves alone.
    fn plain(operand: Operand, takes: Takes) -> Use
        ensures { Some result ≡ plain_use operand takes }
    {
        Use {
            operand,
            takes,
            checked: false,
        }
    }

    fn checked(operand: Operand, takes: Takes) -> Use
        ensures { Some result ≡ checked_use operand takes }
    {
        Use {
            checked: true,
            ..Use::plain(operand, takes)
        }
    }

    // The value that stands as the operand, with what the operand takes.
    fn value(self) -> Option<(u32, Takes)>
        ensures { result ≡ used_in (Some self) }
    {
        Some((self.operand.value()?, self.takes))
    }

    // The value that is checked as the operand.
    fn checked_value(self) -> Option<u32>
        ensures { result ≡ checked_in (Some self) }
    {
        if self.checked {
            self.operand.value()
        } else {
            None
        }
    }
}

impl Takes {
    // Whether a value of the type may stand there.
    pub fn accepts(self, scalar: Scalar) -> bool
        ensures { result ≡ accepts_type self scalar }
    {
        match self {
            Takes::Exactly(own) => scalar == own,
            Takes::OtherWord(own) => is_word(scalar) && scalar != own,
            Takes::OtherIntegral(own) => is_integral(scalar) && scalar != own,
        }
    }
}

impl Step {
    // Operands A and B.
    pub fn operands(self) -> (Option<Use>, Option<Use>)
        ensures { result ≡ operands_of self }
    {
        match self {
            Step::Stop | Step::Jump { .. } => (None, None),
            Step::Set {
                scalar,
                literal,
                ..
            } => (
                Some(Use::plain(Operand::Literal(literal), Takes::Exactly(scalar))),
                None,
            ),
            Step::Copy { scalar, from, .. } => (
                Some(Use::plain(Operand::Value(from), Takes::Exactly(scalar))),
                None,
            ),
            Step::Compute { scalar, a, b, .. } | Step::Compare { scalar, a, b, .. } => (
                Some(Use::checked(a, Takes::Exactly(scalar))),
                Some(Use::checked(b, Takes::Exactly(scalar))),
            ),
            Step::Load { address, .. } => (
                Some(Use::checked(address, Takes::Exactly(POINTER))),
                None,
            ),
            Step::Store {
                scalar,
                address,
                stored,
            } => (
                Some(Use::checked(address, Takes::Exactly(POINTER))),
                Some(Use::plain(stored, Takes::Exactly(scalar))),
            ),
            Step::Offset { base, by, .. } => (
                Some(Use::checked(base, Takes::Exactly(POINTER))),
                Some(Use::checked(by, Takes::Exactly(WORD))),
            ),
            Step::Retype { scalar, from, .. } => (
                Some(Use::checked(Operand::Value(from), Takes::OtherWord(scalar))),
                None,
            ),
            Step::Resize { scalar, from, .. } => (
                Some(Use::checked(Operand::Value(from), Takes::OtherIntegral(scalar))),
                None,
            ),
            Step::Branch { condition, .. } => (
                Some(Use::checked(condition, Takes::Exactly(BYTE))),
                None,
            ),
        }
    }

    // The values that stand as A and as B, with what each operand takes.
    pub fn uses(self) -> (Option<(u32, Takes)>, Option<(u32, Takes)>)
        ensures { result ≡ uses_of self }
    {
        let (a, b) = self.operands();
        (a.and_then(Use::value), b.and_then(Use::value))
    }

    // The values that the step checks, as A and as B.
    pub fn checks(self) -> (Option<u32>, Option<u32>)
        ensures { result ≡ checks_of self }
    {
        let (a, b) = self.operands();
        (
            a.and_then(Use::checked_value),
            b.and_then(Use::checked_value),
        )
    }

    // The value that the step sets, and its type.
    pub fn sets(self) -> Option<(u8, Scalar)>
        ensures { result ≡ set_by self }
    {
        match self {
            Step::Set { scalar, value, .. }
            | Step::Copy { scalar, value, .. }
            | Step::Compute { scalar, value, .. }
            | Step::Load { scalar, value, .. }
            | Step::Retype { scalar, value, .. }
            | Step::Resize { scalar, value, .. } => Some((value, scalar)),
            Step::Compare { value, .. } => Some((value, BYTE)),
            Step::Offset { value, .. } => Some((value, POINTER)),
            Step::Stop | Step::Store { .. } | Step::Jump { .. } | Step::Branch { .. } => None,
        }
    }

    // Whether the kind that the step gives comes from memory or from another value.
    pub fn is_unsure(self) -> bool
        ensures { result ≡ unsure self }
    {
        matches!(self, Step::Copy { .. } | Step::Load { .. })
    }

    pub fn targets(self) -> (Option<u16>, Option<u16>)
        ensures { result ≡ targets_of self }
    {
        match self {
            Step::Jump { to } => (Some(to), None),
            Step::Branch { nonzero, zero, .. } => (Some(nonzero), Some(zero)),
            _ => (None, None),
        }
    }

    // Whether the step does not lead to the one below it.
    pub fn is_terminator(self) -> bool
        ensures { result ≡ terminator self }
    {
        matches!(self, Step::Stop | Step::Jump { .. } | Step::Branch { .. })
    }

    // The next steps of the step, where it stands at `at`.
    pub fn nexts(self, at: u16) -> (Option<u32>, Option<u32>)
        ensures { result ≡ nexts_of self at }
    {
        if self.is_terminator() {
            let (a, b) = self.targets();
            (a.map(u32::from), b.map(u32::from))
        } else {
            (Some(u32::from(at) + 1), None)
        }
    }
}
