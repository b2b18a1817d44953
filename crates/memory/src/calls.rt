// Opening and shutting areas, loads and writes.
ghost use Rattle.std.specs.Prelude.{◌≡◌, ◌+◌, ◌<◌, ◌≤◌, true, IfSome, OnOk, ◌≢◌};
ghost use Rattle.store.specs.declared.tags.Kind.TheVariants.{Unallocated};
ghost use Rattle.store.specs.Cells.{placed, single};
ghost use Rattle.areas.specs.Area.{area_of};
ghost use Rattle.areas.specs.Calls.{Within, opened, open_answer};
ghost use Rattle.areas.specs.Ordered.{Added, found};
ghost use Rattle.memory.specs.State.{blank, view};
ghost use Rattle.memory.specs.Rules.{accessible, after_open, after_shut, after_write, loaded, shut_answer, widest};
ghost use Rattle.memory.specs.Tied.{AlwaysTied, OpenAlone, ShutAlone, Tied};

use crate::Memory;
use crate::bytes::{read, unwritten, wipe, write};
use areas::area::Area;
use areas::areas::Areas;
use refusal::Refusal;
use store::halves::{Cells, Places};
use store::placing::Placing;
use store::reading::kind_read;
use store::tags::Kind;

// The most bytes that one access has.
const WIDEST: u8 = 4;

// Whether an access may be made: it has some bytes, not too many, and all lie in one open area.
fn is_accessible(areas: &Areas, address: u32, size: u8) -> bool
    ensures value { result ≡ accessible (opened areas.now) address size }
    ensures within { result ≡ true → (0 < size) × (size ≤ widest) × (address + size ≤ 4096) }
{
    if size == 0 || size > WIDEST {
        return false;
    }
    areas.lawful(address, size as u32)
}

// Gives each of the bytes a kind whose objects have one byte.
fn cover<S: Places>(store: &mut S, at: u32, count: u32, kind: Kind)
    requires some { 0 < count }
    requires within { at + count ≤ 4096 }
    requires single { single kind ≡ true }
    ensures { S.Cells.cells store.new ≡ placed (S.Cells.cells store.old) at kind count }
{
    // A loop by address: each byte is a placing of its own, and after `for_each` a proof knows nothing of the store.
    for i in 0..count {
        store.lay(Placing {
            start: at + i,
            kind,
            size: 1,
        });
    }
}

// Gives the bytes of an area the kind.
fn mark<S: Places>(store: &mut S, area: Area, kind: Kind)
    requires within { Within area }
    requires single { single kind ≡ true }
    ensures { S.Cells.cells store.new ≡ placed (S.Cells.cells store.old) area.start kind area.length }
{
    cover(store, area.start, area.length, kind);
}

impl<S: Places> Memory<S> {
    pub fn new() -> Memory<S>
        ensures state { view S.Cells.cells result ≡ blank }
        ensures tied { Tied (view S.Cells.cells result) }
        ensures law { AlwaysTied }
    {
        Memory {
            bytes: [unwritten(); 4096],
            store: S::new(),
            areas: Areas::new(),
        }
    }

    // Opens an area, whose bytes become uninitialized.
    pub fn open(&mut self, start: u32, size: u32) -> Result<(), Refusal>
        ensures answer { result ≡ open_answer (view S.Cells.cells self.old).areas start size }
        ensures left { view S.Cells.cells self.new ≡ after_open (view S.Cells.cells self.old) start size }
        ensures law { OnOk result (Added (view S.Cells.cells self.old).areas (area_of start size) (view S.Cells.cells self.new).areas) }
        ensures alone { OnOk result (OpenAlone start size (view S.Cells.cells self.old) (view S.Cells.cells self.new)) }
        ensures tied { Tied (view S.Cells.cells self.old) → Tied (view S.Cells.cells self.new) }
    {
        self.areas.open(start, size)?;
        mark(
            &mut self.store,
            Area {
                start,
                length: size,
            },
            Kind::Uninitialized,
        );
        Ok(())
    }

    // Shuts the area that begins at `start`, whose bytes become zero and unallocated.
    pub fn shut(&mut self, start: u32) -> Result<(), Refusal>
        ensures answer { result ≡ shut_answer (found start (view S.Cells.cells self.old).areas) }
        ensures left { view S.Cells.cells self.new ≡ after_shut (view S.Cells.cells self.old) start }
        ensures alone { OnOk result (ShutAlone start (view S.Cells.cells self.old) (view S.Cells.cells self.new)) }
        ensures tied { Tied (view S.Cells.cells self.old) → Tied (view S.Cells.cells self.new) }
    {
        let area = self.areas.shut(start)?;
        wipe(&mut self.bytes, area);
        mark(&mut self.store, area, Kind::Unallocated);
        Ok(())
    }

    // Writes the `size` low bytes of a number and places its kind over them. Answers whether the access is lawful; an unlawful one changes nothing.
    pub fn write(&mut self, address: u32, size: u8, value: u32, kind: Kind) -> bool
        ensures answer { result ≡ accessible (view S.Cells.cells self.old).areas address size }
        ensures left { view S.Cells.cells self.new ≡ after_write (view S.Cells.cells self.old) address size value kind }
        ensures tied { (kind ≢ Unallocated) → Tied (view S.Cells.cells self.old) → Tied (view S.Cells.cells self.new) }
    {
        if !is_accessible(&self.areas, address, size) {
            return false;
        }
        write(&mut self.bytes, address as usize, value, size);
        let _ = self.store.place(address, kind.into(), size);
        true
    }
}

impl<C: Cells> Memory<C> {
    // The number in the bytes, the low byte first, and the kind read from them: none where the access is unlawful.
    pub fn load(&self, address: u32, size: u8) -> Option<(u32, Kind)>
        ensures answer { result ≡ loaded (view C.Cells.cells self.now) address size }
        ensures tied { Tied (view C.Cells.cells self.now) → IfSome result (λ x. x.1 ≢ Unallocated) }
    {
        if !is_accessible(&self.areas, address, size) {
            return None;
        }
        let kind = kind_read(&self.store, address, size)?;
        Some((read(&self.bytes, address as usize, size), kind))
    }
}
