// The codes of steps.
ghost use Rattle.steps.specs.Codes.{CodeOf, NumberOf};

use crate::step::{Comparison, Operation};

// What a step's code says, as far as it does not depend on the other fields.
#[derive(Clone, Copy)]
pub(crate) enum Code {
    Stop,
    Set,
    Copy,
    Compute(Operation),
    Compare(Comparison),
    Load,
    Store,
    Offset,
    Retype,
    Resize,
    Jump,
    Branch,
}

// The error for a number that is no step's code.
#[derive(Clone, Copy)]
pub(crate) struct UnknownCode;

impl TryFrom<u8> for Code {
    type Error = UnknownCode;

    ghost try_from_gives = { CodeOf };

    fn try_from(number: u8) -> Result<Code, UnknownCode> {
        match number {
            0 => Ok(Code::Stop),
            1 => Ok(Code::Set),
            2 => Ok(Code::Copy),
            3 => Ok(Code::Compute(Operation::Add)),
            4 => Ok(Code::Compute(Operation::Sub)),
            5 => Ok(Code::Compute(Operation::Mul)),
            6 => Ok(Code::Compute(Operation::Div)),
            7 => Ok(Code::Compute(Operation::And)),
            8 => Ok(Code::Compute(Operation::Or)),
            9 => Ok(Code::Compute(Operation::Shl)),
            10 => Ok(Code::Compute(Operation::Shr)),
            11 => Ok(Code::Compare(Comparison::Equal)),
            12 => Ok(Code::Compare(Comparison::Less)),
            13 => Ok(Code::Load),
            14 => Ok(Code::Store),
            15 => Ok(Code::Offset),
            16 => Ok(Code::Retype),
            17 => Ok(Code::Resize),
            18 => Ok(Code::Jump),
            19 => Ok(Code::Branch),
            _ => Err(UnknownCode),
        }
    }
}

impl From<Code> for u8 {
    ghost from_gives = { NumberOf };

    fn from(code: Code) -> u8 {
        match code {
            Code::Stop => 0,
            Code::Set => 1,
            Code::Copy => 2,
            Code::Compute(operation) => operation as u8,
            Code::Compare(comparison) => comparison as u8,
            Code::Load => 13,
            Code::Store => 14,
            Code::Offset => 15,
            Code::Retype => 16,
            Code::Resize => 17,
            Code::Jump => 18,
            Code::Branch => 19,
        }
    }
}
