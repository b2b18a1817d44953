// The kind that bytes are read as, over any asking half.
// An address and a size stay two parameters: a struct of them would be made at each call, and taken apart in it.
ghost use Rattle.std.specs.Prelude.{◌≡◌, ◌+◌, ◌<◌, ◌≤◌, ◌&&◌, if◌then◌else◌, ◌==◌, nat_eq};
ghost use Rattle.store.specs.declared.tags.Kind.TheVariants.{Torn};
ghost use Rattle.store.specs.Reading.{same, all_of, kind_read, read_answer};

use crate::halves::Cells;
use crate::tags::{BYTES, Cell, Kind};

fn is_kind<C: Cells>(store: &C, kind: Kind, address: u32) -> bool
    requires { address < 4096 }
    ensures { result ≡ same (C.Cells.cells store.now address).kind kind }
{
    store.cell(address).is_some_and(|cell| cell.kind == kind)
}

fn all_of<C: Cells>(store: &C, kind: Kind, address: u32, size: u8) -> bool
    requires { address + size ≤ 4096 }
    ensures { result ≡ all_of (C.Cells.cells store.now) kind address size }
{
    (0..size).all(|i| is_kind(store, kind, address + i as u32))
}

// The kind if all the bytes have it, and torn otherwise.
fn read_uniform<C: Cells>(store: &C, kind: Kind, address: u32, size: u8) -> Kind
    requires { address + size ≤ 4096 }
    ensures { result ≡ (if all_of (C.Cells.cells store.now) kind address size then kind else Torn) }
{
    if all_of(store, kind, address, size) {
        kind
    } else {
        Kind::Torn
    }
}

// The kind of an object of that size that starts at the cell, and torn if there is none.
fn read_object(first: Cell, size: u8) -> Kind
    ensures { result ≡ (if nat_eq first.position 0 && first.size == size then first.kind else Torn) }
{
    if first.position == 0 && first.size == size {
        first.kind
    } else {
        Kind::Torn
    }
}

// The first byte tells which of the rules applies, so that reading an object takes one question.
fn read_inside<C: Cells>(store: &C, address: u32, size: u8) -> Kind
    requires { (0 < size) × (address + size ≤ 4096) }
    ensures { result ≡ kind_read (C.Cells.cells store.now) address size }
{
    match store.cell(address) {
        Some(first) => match first.kind {
            Kind::Uninitialized => read_uniform(store, Kind::Uninitialized, address, size),
            Kind::Zero => read_uniform(store, Kind::Zero, address, size),
            _ => read_object(first, size),
        },
        None => Kind::Torn,
    }
}

// The kind that `size` bytes from an address are read as: none where there are no bytes, or not all lie in memory.
pub fn kind_read<C: Cells>(store: &C, address: u32, size: u8) -> Option<Kind>
    ensures { result ≡ read_answer (C.Cells.cells store.now) address size }
{
    if size == 0 || address >= BYTES || address + size as u32 > BYTES {
        return None;
    }
    Some(read_inside(store, address, size))
}
