// What is drawn of a byte and of a field, and how it reads.
use std::fmt;
use store::scalars::Scalar;
use store::tags::Cell;

// One byte: the field that has it, if any, its cell, its nibble in the mirror and its reset byte.
#[derive(Clone, Copy)]
pub struct Row {
    pub address: u32,
    pub field: Option<u32>,
    pub cell: Cell,
    pub nibble: u8,
    pub reset: Option<u8>,
}

// The bytes of a field, and whether the first has an odd address.
#[derive(Clone, Copy)]
pub struct Extent {
    pub scalar: Scalar,
    pub first: u32,
    pub last: u64,
    pub odd: bool,
}

impl fmt::Display for Row {
    fn fmt<W: fmt::Write>(&self, f: &mut fmt::Formatter<W>) -> fmt::Result {
        let address = self.address;
        let kind = self.cell.kind;
        let size = self.cell.size;
        let position = self.cell.position;
        let nibble = self.nibble;
        match self.field {
            Some(field) => write!(f, "byte {address} field {field}")?,
            None => write!(f, "byte {address} gap")?,
        }
        write!(
            f,
            " kind {kind} size {size} position {position} nibble {nibble:X}"
        )?;
        match self.reset {
            Some(reset) => write!(f, " reset {reset:02X}"),
            None => Ok(()),
        }
    }
}

impl fmt::Display for Extent {
    fn fmt<W: fmt::Write>(&self, f: &mut fmt::Formatter<W>) -> fmt::Result {
        let kind = self.scalar.kind;
        let size = self.scalar.size;
        let first = self.first;
        let last = self.last;
        let parity = if self.odd { "odd" } else { "even" };
        write!(
            f,
            "{kind} size {size} bytes {first} to {last} starts {parity}"
        )
    }
}
