// The kind of an object, and the cell of a byte.
ghost use Rattle.std.specs.Prelude.{◌≡◌, Some};
ghost use Rattle.store.specs.Cells.{kind_answer, kind_word, number_of};

use std::fmt;

// The bytes of a memory.
pub const BYTES: u32 = 4096;

// What a byte of memory is part of.
#[derive(Clone, Copy, PartialEq, Eq, Debug)]
pub enum Kind {
    Unallocated,
    Uninitialized,
    Zero,
    Integral,
    Real,
    Pointer,
    // What is left of an object of which another byte was overwritten.
    Torn,
}

// A byte's tag: the kind and the size of its object, and its position there.
#[derive(Clone, Copy, PartialEq, Eq, Debug)]
pub struct Cell {
    pub kind: Kind,
    pub size: u8,
    pub position: u8,
}

// A number that no kind has.
#[derive(Clone, Copy, PartialEq, Eq, Debug)]
pub struct UnknownKind(pub u8);

impl TryFrom<u8> for Kind {
    type Error = UnknownKind;

    ghost try_from_gives = { λ number result. result ≡ kind_answer number };

    fn try_from(number: u8) -> Result<Kind, UnknownKind> {
        match number {
            0 => Ok(Kind::Unallocated),
            1 => Ok(Kind::Uninitialized),
            2 => Ok(Kind::Zero),
            3 => Ok(Kind::Integral),
            4 => Ok(Kind::Real),
            5 => Ok(Kind::Pointer),
            6 => Ok(Kind::Torn),
            _ => Err(UnknownKind(number)),
        }
    }
}

// The kind's word.
impl fmt::Display for Kind {
    ghost output = { λ kind. Some (kind_word kind) };

    fn fmt<W: fmt::Write>(&self, f: &mut fmt::Formatter<W>) -> fmt::Result {
        f.write_str(match self {
            Kind::Unallocated => "unallocated",
            Kind::Uninitialized => "uninitialized",
            Kind::Zero => "zero",
            Kind::Integral => "integral",
            Kind::Real => "real",
            Kind::Pointer => "pointer",
            Kind::Torn => "torn",
        })
    }
}

impl From<Kind> for u8 {
    ghost from_gives = { λ kind number. number ≡ number_of kind };

    fn from(kind: Kind) -> u8 {
        kind as u8
    }
}
