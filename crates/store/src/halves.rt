// The two halves of a tag store. Code above a store knows nothing else of it.
ghost use Rattle.std.specs.Prelude.{◌≡◌};
ghost use Rattle.store.specs.Cells.{Memory, Whole, empty, asked, reply, put};
ghost use Rattle.store.specs.Placing.{carried};

use crate::placing::Placing;
use crate::tags::Cell;
use refusal::Refusal;

// The asking half: a store means the cells of its 4,096 bytes, which are divided into whole objects.
pub trait Cells {
    ghost cells: { Self → Memory };

    // The cell of an address, and none above 4,095.
    fn cell(&self, address: u32) -> Option<Cell>
        ensures { result ≡ asked (cells self.now) address };

    ghost whole: { (s : Self) → Whole (cells s) };
}

// The writing half.
pub trait Places: Cells + Sized {
    // A store whose bytes are all unallocated.
    fn new() -> Self
        ensures { Self.Cells.cells result ≡ empty };

    // Carries out a placing, which cannot fail.
    fn lay(&mut self, placing: Placing)
        ensures { Self.Cells.cells self.new ≡ carried (Self.Cells.cells self.old) placing };

    // Places a kind over `size` bytes. A refusal, at place 0, alters no cell.
    // The kind comes as its number, since a number above 6 has to be refused.
    fn place(&mut self, address: u32, kind: u8, size: u8) -> Result<(), Refusal>
        ensures answer { result ≡ reply address kind size }
        ensures left { Self.Cells.cells self.new ≡ put (Self.Cells.cells self.old) address kind size }
    {
        let placing = Placing::request(address, kind, size)?;
        self.lay(placing);
        Ok(())
    }
}
