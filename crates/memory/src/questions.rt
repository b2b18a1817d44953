// What a memory holds. A question changes nothing, and needs only the asking half of a store.
ghost use Rattle.std.specs.Prelude.{◌≡◌, length, if◌then◌else◌, Some, None, nat_lt};
ghost use Rattle.std.specs.List.{slice_get};
ghost use Rattle.store.specs.Cells.{asked};
ghost use Rattle.search.specs.Marks.{Clear};
ghost use Rattle.memory.specs.Links.{Reach};
ghost use Rattle.memory.specs.State.{view};

use crate::Memory;
use crate::links::Links;
use areas::area::Area;
use refusal::Refusal;
use store::halves::Cells;
use store::tags::Cell;

impl<C: Cells> Memory<C> {
    pub fn byte(&self, address: u32) -> Option<u8>
        ensures { result ≡ (if nat_lt address 4096 then Some ((view C.Cells.cells self.now).bytes address) else None) }
    {
        self.bytes.get(address as usize).copied()
    }

    pub fn cell(&self, address: u32) -> Option<Cell>
        ensures { result ≡ asked (view C.Cells.cells self.now).cells address }
    {
        self.store.cell(address)
    }

    pub fn area_count(&self) -> u8
        ensures { result ≡ length (view C.Cells.cells self.now).areas }
    {
        self.areas.count()
    }

    // Area `i` by address, from 0.
    pub fn area(&self, i: u8) -> Option<Area>
        ensures { result ≡ slice_get (view C.Cells.cells self.now).areas i }
    {
        self.areas.area(i)
    }

    // The areas that the one at `start` leads to, and itself: bit `i` is for area `i`.
    pub fn reach(&self, start: u32, marks: &mut [u8]) -> Result<u32, Refusal>
        ensures answer { Reach (view C.Cells.cells self.now) start (length marks.old) result }
        ensures clear { Clear marks.new }
    {
        let links = Links {
            bytes: &self.bytes,
            store: &self.store,
            areas: &self.areas,
        };
        links.reach(start, marks)
    }
}
