// Steps and their operands.
ghost use Rattle.std.specs.Prelude.{◌≡◌};
ghost use Rattle.steps.specs.Tables.{named};
ghost use Rattle.steps.specs.Decoding.{literal};

use store::scalars::Scalar;

// What stands as an operand: a value, by its number, or a literal.
#[derive(Clone, Copy, PartialEq, Eq, Debug)]
pub enum Operand {
    Value(u32),
    Literal(u32),
}

impl Operand {
    // The number of the value that stands there.
    pub(crate) fn value(self) -> Option<u32>
        ensures { result ≡ named self }
    {
        match self {
            Operand::Value(value) => Some(value),
            Operand::Literal(_) => None,
        }
    }
    // The literal that stands there.
    pub(crate) fn literal(self) -> Option<u32>
        ensures { result ≡ literal self }
    {
        match self {
            Operand::Value(_) => None,
            Operand::Literal(literal) => Some(literal),
        }
    }
}

// An operation has the code of its step as its number.
#[derive(Clone, Copy, PartialEq, Eq, Debug)]
pub enum Operation {
    Add = 3,
    Sub = 4,
    Mul = 5,
    Div = 6,
    And = 7,
    Or = 8,
    Shl = 9,
    Shr = 10,
}

// A comparison has the code of its step as its number.
#[derive(Clone, Copy, PartialEq, Eq, Debug)]
pub enum Comparison {
    Equal = 11,
    Less = 12,
}

// A step. `scalar` is the type of its letter, `value` the number of the value that it sets, `from` that of the value that it takes.
#[derive(Clone, Copy, PartialEq, Eq, Debug)]
pub enum Step {
    Stop,
    Set {
        scalar: Scalar,
        value: u8,
        literal: u32,
    },
    Copy {
        scalar: Scalar,
        value: u8,
        from: u32,
    },
    Compute {
        operation: Operation,
        scalar: Scalar,
        value: u8,
        a: Operand,
        b: Operand,
    },
    Compare {
        comparison: Comparison,
        scalar: Scalar,
        value: u8,
        a: Operand,
        b: Operand,
    },
    Load {
        scalar: Scalar,
        value: u8,
        address: Operand,
    },
    Store {
        scalar: Scalar,
        address: Operand,
        stored: Operand,
    },
    Offset {
        value: u8,
        base: Operand,
        by: Operand,
    },
    Retype {
        scalar: Scalar,
        value: u8,
        from: u32,
    },
    Resize {
        scalar: Scalar,
        value: u8,
        from: u32,
    },
    Jump {
        to: u16,
    },
    Branch {
        condition: Operand,
        nonzero: u16,
        zero: u16,
    },
}

// The types of values that an operand takes.
#[derive(Clone, Copy, PartialEq, Eq, Debug)]
pub enum Takes {
    Exactly(Scalar),
    // Another of the types with the size of a pointer.
    OtherWord(Scalar),
    // Another of the integral types.
    OtherIntegral(Scalar),
}

// An operand as a step uses it. A step checks the kind of a checked operand, if that is a value, before it does any work.
#[derive(Clone, Copy, PartialEq, Eq, Debug)]
pub struct Use {
    pub operand: Operand,
    pub takes: Takes,
    pub checked: bool,
}
