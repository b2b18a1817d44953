// The 16 bytes of a step, and what makes a step well formed.
ghost use Rattle.std.specs.Prelude.{◌≡◌, ◌^◌, ◌≤◌, Some, None, nat_lt};
ghost use Rattle.steps.specs.Codes.{code_number};
ghost use Rattle.steps.specs.Tables.{operands as operands_of};
ghost use Rattle.steps.specs.Format.{letter_of, type_of, row as row_of, fields_of, form_of, bits_of, bytes_of, encoded, lettered, typed, numbered, fitting, both_fitting, formed};

use crate::code::Code;
use crate::fields::Fields;
use crate::step::{Operand, Step, Takes, Use};
use crate::tables::{POINTER, is_integral, is_word};
use store::scalars::Scalar;
use store::tags::Kind;

// The number of values.
const VALUES: u8 = 128;

// What stands in place of a value where a step sets none.
const NO_VALUE: u8 = 255;

// The letter of a type; 0 for a kind that has none. A size that none of the kind's letters stands for, which no well-formed step has, counts as 4,
// so that every step has an encoding: it is not `Scalar::letter` alone.
fn letter_of(scalar: Scalar) -> u8
    ensures { result ≡ letter_of scalar }
{
    let size = match scalar {
        Scalar {
            kind: Kind::Integral,
            size: 1 | 2,
        } => scalar.size,
        _ => 4,
    };
    Scalar { size, ..scalar }.letter().unwrap_or(0)
}

// The fields of a step that has a letter and sets a value.
fn setting(code: Code, scalar: Scalar, value: u8, a: Operand, b: Option<Operand>) -> Fields
    ensures { result ≡ row_of (code_number code) (letter_of scalar) value (Some a) b 0 0 }
{
    Fields {
        code: u8::from(code),
        letter: letter_of(scalar),
        value,
        a: Some(a),
        b,
        first: 0,
        second: 0,
    }
}

// The fields of a step that has no letter and sets nothing.
fn control(code: Code, a: Option<Operand>, first: u16, second: u16) -> Fields
    ensures { result ≡ row_of (code_number code) 0 255 a None first second }
{
    Fields {
        code: u8::from(code),
        letter: 0,
        value: NO_VALUE,
        a,
        b: None,
        first,
        second,
    }
}

impl Operand {
    // The form of a value and of a literal; that of no operand is 0.
    fn form(self) -> u8
        ensures form { result ≡ form_of (Some self) }
        ensures small { result ≤ 2 }
    {
        match self {
            Operand::Value(_) => 1,
            Operand::Literal(_) => 2,
        }
    }

    // The number in the operand's four bytes.
    fn bits(self) -> u32
        ensures { result ≡ bits_of (Some self) }
    {
        match self {
            Operand::Value(bits) | Operand::Literal(bits) => bits,
        }
    }
}

impl Fields {
    fn to_bytes(self) -> [u8; 16]
        ensures { result ≡ bytes_of self }
    {
        let forms = self.a.map_or(0, Operand::form) + 16 * self.b.map_or(0, Operand::form);
        let [a0, a1, a2, a3] = self.a.map_or(0, Operand::bits).to_le_bytes();
        let [b0, b1, b2, b3] = self.b.map_or(0, Operand::bits).to_le_bytes();
        let [first_low, first_high] = self.first.to_le_bytes();
        let [second_low, second_high] = self.second.to_le_bytes();
        [
            self.code,
            self.letter,
            self.value,
            forms,
            a0,
            a1,
            a2,
            a3,
            b0,
            b1,
            b2,
            b3,
            first_low,
            first_high,
            second_low,
            second_high,
        ]
    }
}

// Whether a letter stands for the type.
fn is_lettered(scalar: Scalar) -> bool
    ensures { result ≡ lettered scalar }
{
    scalar.letter().is_some()
}

// Whether a literal has at most `size` bytes.
fn has_room(literal: u32, size: u8) -> bool
    ensures { result ≡ nat_lt literal (256 ^ size) }
{
    256u32
        .checked_pow(u32::from(size))
        .is_none_or(|above| literal < above)
}

impl Takes {
    // The type that decides how large a literal may be.
    fn scalar(self) -> Scalar
        ensures { result ≡ type_of self }
    {
        match self {
            Takes::Exactly(scalar) | Takes::OtherWord(scalar) | Takes::OtherIntegral(scalar) =>
                scalar,
        }
    }
}

impl Use {
    // Whether a literal fits the type of its operand.
    fn is_fitting(self) -> bool
        ensures { result ≡ fitting (Some self) }
    {
        match self.operand {
            Operand::Value(_) => true,
            Operand::Literal(literal) => has_room(literal, self.takes.scalar().size),
        }
    }
}

impl Step {
    fn fields(self) -> Fields
        ensures { result ≡ fields_of self }
    {
        match self {
            Step::Stop => control(Code::Stop, None, 0, 0),
            Step::Set {
                scalar,
                value,
                literal,
            } => setting(Code::Set, scalar, value, Operand::Literal(literal), None),
            Step::Copy {
                scalar,
                value,
                from,
            } => setting(Code::Copy, scalar, value, Operand::Value(from), None),
            Step::Compute {
                operation,
                scalar,
                value,
                a,
                b,
            } => setting(Code::Compute(operation), scalar, value, a, Some(b)),
            Step::Compare {
                comparison,
                scalar,
                value,
                a,
                b,
            } => setting(Code::Compare(comparison), scalar, value, a, Some(b)),
            Step::Load {
                scalar,
                value,
                address,
            } => setting(Code::Load, scalar, value, address, None),
            Step::Store {
                scalar,
                address,
                stored,
            } => setting(Code::Store, scalar, NO_VALUE, address, Some(stored)),
            Step::Offset { value, base, by } => setting(
                Code::Offset,
                POINTER,
                value,
                base,
                Some(by),
            ),
            Step::Retype {
                scalar,
                value,
                from,
            } => setting(Code::Retype, scalar, value, Operand::Value(from), None),
            Step::Resize {
                scalar,
                value,
                from,
            } => setting(Code::Resize, scalar, value, Operand::Value(from), None),
            Step::Jump { to } => control(Code::Jump, None, to, 0),
            Step::Branch {
                condition,
                nonzero,
                zero,
            } => control(Code::Branch, Some(condition), nonzero, zero),
        }
    }

    // The step's 16 bytes.
    #[tactic(auto, unfolding(crate::specs::Format::encoded))]
    pub fn encode(self) -> [u8; 16]
        ensures { result ≡ encoded self }
    {
        self.fields().to_bytes()
    }

    // Whether the step's letter is one of its row.
    fn is_typed(self) -> bool
        ensures { result ≡ typed self }
    {
        match self {
            Step::Set { scalar, .. }
            | Step::Copy { scalar, .. }
            | Step::Load { scalar, .. }
            | Step::Store { scalar, .. } => { is_lettered(scalar) }
            Step::Compute { scalar, .. }
            | Step::Compare { scalar, .. }
            | Step::Resize { scalar, .. } => { is_lettered(scalar) && is_integral(scalar) }
            Step::Retype { scalar, .. } => is_lettered(scalar) && is_word(scalar),
            Step::Stop | Step::Offset { .. } | Step::Jump { .. } | Step::Branch { .. } => true,
        }
    }

    // Whether each literal fits the type of its operand.
    fn has_fitting_literals(self) -> bool
        ensures { result ≡ both_fitting (operands_of self) }
    {
        let (a, b) = self.operands();
        a.is_none_or(Use::is_fitting) && b.is_none_or(Use::is_fitting)
    }

    // Whether letter, value set and literals are ones that the step may have.
    // The operands come last, and in a function of their own: taken at the beginning they are carried through all the tests.
    #[tactic(auto, unfolding(crate::specs::Format::formed))]
    pub fn is_formed(self) -> bool
        ensures { result ≡ formed self }
    {
        self.is_typed()
            && self.sets().is_none_or(|(value, _)| value < VALUES)
            && self.has_fitting_literals()
    }
}
