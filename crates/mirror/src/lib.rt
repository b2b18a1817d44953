// The mirror: a nibble for each byte of memory.
#![tactic(auto)]

ghost use Rattle.std.specs.Prelude.{◌≡◌, ℕ, ◌+◌, ◌<◌, true};
ghost use Rattle.store.specs.Cells.{Whole, kind_of, is_size, sound};
ghost use Rattle.store.specs.Placing.{span_in};
ghost use Rattle.mirror.specs.Nibbles.{nibbles, nibble_of, log2, byte_answer, nibble_answer, size_from, decoded};

mod nibbles;

use nibbles::Nibbles;
use store::halves::{Cells, Places};
use store::placing::Placing;
use store::tags::{BYTES, Cell, Kind};

// A store that shows its cells as the bytes of a mirror.
pub trait Mirrored: Cells {
    // A byte of the mirror: the nibbles of two addresses, the even one in the low half. None above 2,047.
    fn byte(&self, index: u32) -> Option<u8>
        ensures { result ≡ byte_answer (Self.Cells.cells self.now) index };

    // The nibble of an address, and none above 4,095.
    fn nibble(&self, address: u32) -> Option<u8>
        ensures { result ≡ nibble_answer (Self.Cells.cells self.now) address }
    {
        let byte = self.byte(address / 2)?;
        Some(if address % 2 == 0 {
            byte % 16
        } else {
            byte / 16
        })
    }
}

#[derive(Drop)]
pub struct Mirror {
    row: Nibbles,
    ghost ok: { Whole (decoded (nibbles row.bytes)) },
    ghost exact: { (i : ℕ) → nibbles row.bytes i ≡ nibble_of (decoded (nibbles row.bytes) i) },
}

// The kind that a first nibble tells.
fn kind_from(first: u8) -> Kind
    ensures { result ≡ kind_of first }
{
    Kind::try_from(first).unwrap_or(Kind::Torn)
}

// The size that the nibble after a first one tells.
fn size_from(second: u8) -> u8
    requires { second < 16 }
    ensures { result ≡ size_from second }
{
    1 << second.saturating_sub(8)
}

fn log_of(size: u8) -> u8
    requires { is_size size ≡ true }
    ensures value { result ≡ log2 size }
    ensures small { result < 8 }
{
    size.ilog2() as u8
}

// The nibble of the second byte of an object.
fn second_nibble(size: u8) -> u8
    requires { is_size size ≡ true }
    ensures value { result ≡ 8 + log2 size }
    ensures small { result < 16 }
{
    8 + log_of(size)
}

fn nibble_of(c: Cell) -> u8
    requires { sound c ≡ true }
    ensures value { result ≡ nibble_of c }
    ensures small { result < 16 }
{
    match c.position {
        0 => u8::from(c.kind),
        1 => second_nibble(c.size),
        _ => 8,
    }
}

impl Mirror {
    fn decode(&self, i: usize) -> Cell
        requires { i < 4096 }
        ensures { result ≡ decoded (nibbles self.now.row.bytes) i }
    {
        let position = self.row.position(i);
        let first = i - position;
        Cell {
            kind: kind_from(self.row.get(first)),
            size: size_from(self.row.get(first + 1)),
            position: position as u8,
        }
    }
}

impl Mirror {
    // The bytes that a placing changes.
    fn span(&self, placing: Placing) -> (u32, u32)
        ensures { result ≡ span_in (decoded (nibbles self.now.row.bytes)) placing }
    {
        placing.span_in(self)
    }
}

impl Cells for Mirror {
    ghost cells = { λ s. decoded (nibbles s.row.bytes) };

    ghost whole = { λ s. s.ok };

    fn cell(&self, address: u32) -> Option<Cell> {
        if address < BYTES {
            Some(self.decode(address as usize))
        } else {
            None
        }
    }
}

impl Places for Mirror {
    fn new() -> Mirror {
        let nibble = u8::from(Kind::Unallocated);
        Mirror {
            row: Nibbles {
                bytes: [nibble + 16 * nibble; 2048],
            },
        }
    }

    fn lay(&mut self, placing: Placing) {
        let (low, high) = self.span(placing);
        let row = &mut self.row;
        // By address: two nibbles share a byte, so that no slice has one in each place.
        for i in low..high {
            row.set(i as usize, nibble_of(placing.cell(i)));
        }
    }
}

impl Mirrored for Mirror {
    fn byte(&self, index: u32) -> Option<u8> {
        self.row.byte(index as usize)
    }
}
