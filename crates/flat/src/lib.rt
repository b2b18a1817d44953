// The flat store: a whole cell for each byte.
#![tactic(auto)]

ghost use Rattle.std.specs.Prelude.{◌≡◌};
ghost use Rattle.store.specs.Cells.{Whole};
ghost use Rattle.store.specs.Placing.{span_in};
ghost use Rattle.flat.specs.Rows.{memory};

use store::halves::{Cells, Places};
use store::placing::Placing;
use store::tags::{BYTES, Cell, Kind};

#[derive(Drop)]
pub struct Flat {
    held: [Cell; 4096],
    ghost ok: { Whole (memory held) },
}

impl Flat {
    // The bytes that a placing changes. The row is asked itself: a placing lies in memory, so that neither cell can be missing.
    fn span(&self, placing: Placing) -> (u32, u32)
        ensures { result ≡ span_in (memory self.now.held) placing }
    {
        let first = self.held[placing.start as usize];
        let last = self.held[placing.last() as usize];
        placing.span(first, last)
    }
}

impl Cells for Flat {
    ghost cells = { λ s. memory s.held };

    ghost whole = { λ s. s.ok };

    fn cell(&self, address: u32) -> Option<Cell> {
        // By a test, so that an edit of what lies past the end and one of what lies inside are told apart.
        if address < BYTES {
            Some(self.held[address as usize])
        } else {
            None
        }
    }
}

impl Places for Flat {
    fn new() -> Flat {
        Flat {
            held: [Cell::alone(Kind::Unallocated); 4096],
        }
    }

    fn lay(&mut self, placing: Placing) {
        let (low, high) = self.span(placing);
        let held = &mut self.held;
        // A loop by address, which is what the placing is asked for: zipped with a part of the row it would be longer.
        for i in low..high {
            held[i as usize] = placing.cell(i);
        }
    }
}
