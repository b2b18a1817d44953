// The slots of an area are its bytes: one where a pointer begins leads to the area that has the pointer's address.
ghost use Rattle.std.specs.Prelude.{◌≡◌, ◌+◌, ◌<◌, ◌≤◌};
ghost use Rattle.memory.specs.Bytes.{held, value_at};
ghost use Rattle.memory.specs.Links.{aims, is_pointer, leads_of, linked, slots_of};

use crate::bytes::read;
use crate::links::Links;
use search::Graph;
use store::halves::Cells;
use store::tags::{Cell, Kind};

// Whether a pointer begins at the cell.
fn is_pointer(cell: Cell) -> bool
    ensures { result ≡ is_pointer cell }
{
    cell.kind == Kind::Pointer && cell.position == 0
}

impl<C: Cells> Links<'_, C> {
    // The area to which a byte leads: that of the address in the pointer that begins there.
    fn aim(&self, at: u32) -> Option<u8>
        requires { at < 4096 }
        ensures { result ≡ aims (linked C.Cells.cells self.now) at }
    {
        let cell = self.store.cell(at)?;
        if is_pointer(cell) {
            self.areas.index_of(read(self.bytes, at as usize, 4))
        } else {
            None
        }
    }
}

impl<C: Cells> Graph for Links<'_, C> {
    ghost slots = { λ s. slots_of (linked C.Cells.cells s) };

    ghost leads = { λ s. leads_of (linked C.Cells.cells s) };

    fn slot_count(&self, node: u8) -> u32 {
        self.areas.area(node).map_or(0, |area| area.length)
    }

    fn slot(&self, node: u8, slot: u32) -> Option<u8> {
        let area = self.areas.area(node)?;
        if slot < area.length {
            self.aim(area.start + slot)
        } else {
            None
        }
    }
}
