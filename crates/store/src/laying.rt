// What a placing does to each cell, for those who write a store.
ghost use Rattle.std.specs.Prelude.{◌≡◌};
ghost use Rattle.store.specs.Cells.{cell_of, fitting, fresh};
ghost use Rattle.store.specs.Placing.{Requested, laid, last as end, span_in, spanned};

use crate::halves::Cells;
use crate::placing::Placing;
use crate::tags::{BYTES, Cell, Kind};
use refusal::{Refusal, Rule};

const REFUSED: Refusal = (Rule::Placing, 0);

impl Cell {
    // A byte that is an object by itself.
    pub fn alone(kind: Kind) -> Cell
        ensures { result ≡ cell_of kind 1 0 }
    {
        Cell {
            kind,
            size: 1,
            position: 0,
        }
    }
}

impl Kind {
    // Whether the kind may be placed over `size` bytes.
    fn fits(self, size: u8) -> bool
        ensures { result ≡ fitting self size }
    {
        match self {
            Kind::Real | Kind::Pointer => size == 4,
            _ => matches!(size, 1 | 2 | 4),
        }
    }

    // What placing the kind over `size` bytes makes of the one at `position`.
    fn fresh(self, size: u8, position: u8) -> Cell
        ensures { result ≡ fresh self size position }
    {
        match self {
            Kind::Integral | Kind::Real | Kind::Pointer => Cell {
                kind: self,
                size,
                position,
            },
            _ => Cell::alone(self),
        }
    }
}

impl Placing {
    // The placing that is asked for, or the refusal of it. The kind comes as its number, as in `place`.
    pub fn request(address: u32, kind: u8, size: u8) -> Result<Placing, Refusal>
        ensures { Requested address kind size result }
    {
        if address >= BYTES || address + size as u32 > BYTES {
            return Err(REFUSED);
        }
        match Kind::try_from(kind) {
            Ok(kind) if kind.fits(size) => Ok(Placing {
                start: address,
                kind,
                size,
            }),
            _ => Err(REFUSED),
        }
    }

    // The cell that byte `i` gets, if it changes.
    pub fn cell(&self, i: u32) -> Cell
        ensures { result ≡ laid self.now i }
    {
        if self.start <= i && i - self.start < self.size as u32 {
            self.kind.fresh(self.size, (i - self.start) as u8)
        } else {
            Cell::alone(Kind::Torn)
        }
    }

    pub fn last(&self) -> u32
        ensures { result ≡ end self.now }
    {
        self.start + self.size as u32 - 1
    }

    // The bytes that change lie from the first answer to below the second, where `first` and `last` are the cells of the placing's own first and last byte.
    pub fn span(&self, first: Cell, last: Cell) -> (u32, u32)
        ensures { result ≡ spanned self.now first last }
    {
        let low = self.start.saturating_sub(first.position as u32);
        let start = self.last().saturating_sub(last.position as u32);
        (low, start + last.size as u32)
    }

    // The bytes that change in a store.
    pub fn span_in<C: Cells>(&self, store: &C) -> (u32, u32)
        ensures { result ≡ span_in (C.Cells.cells store.now) self.now }
    {
        let first = store.cell(self.start).unwrap();
        let last = store.cell(self.last()).unwrap();
        self.span(first, last)
    }
}
