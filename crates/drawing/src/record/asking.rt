// Records from bodies, and how they are drawn: each alone in a new memory.
ghost use Rattle.std.specs.Prelude.{◌≡◌, ℕ, ◌<◌, ◌≤◌, min, List, IfOk, Some, None, Ok, MatchOption};
ghost use Rattle.std.specs.Option.{option_map};
ghost use Rattle.first.specs.First.{First, Only, answer_of};
ghost use Rattle.little_endian.specs.Numbers.{two};
ghost use Rattle.layout.specs.Layouts.{Reads};
ghost use Rattle.layout.specs.Placing.{laid_cells};
ghost use Rattle.store.specs.Cells.{empty};
ghost use Rattle.mirror.specs.Nibbles.{nibble_of};
ghost use Rattle.drawing.specs.Fields.{Past};
ghost use Rattle.drawing.specs.Drawn.{Allowed, CellByField, Drawn, Ends, HasIn, Shown, end_of, ending, extent_of, field_in, reset_at};

use crate::record::Record;
use crate::row::{Extent, Row};
use first::{Test, first_bad, try_rule};
use layout::field::Field;
use layout::layout::Layout;
use mirror::Mirrored;
use refusal::{Refusal, Rule};
use store::halves::{Cells, Places};
use store::tags::BYTES;

// A field does not lie inside the memory. A struct, for the reason at `first::Test`.
#[derive(Clone, Copy)]
struct PastMemory<'a> {
    layout: Layout<'a>,
}

impl Test for PastMemory<'_> {
    ghost bad = { λ s. Past s.layout.body.now };

    ghost places = { λ s. s.layout.count };

    fn count(&self) -> u32 {
        self.layout.field_count()
    }

    fn fails(&self, place: u32) -> bool {
        // Under `is_some_and` the check does not find what the closure decides.
        match self.layout.field(place) {
            Some(field) => field.end() > BYTES as u64,
            None => false,
        }
    }
}

// A byte is one of a field's own.
#[derive(Clone, Copy)]
struct HasByte<'a> {
    layout: Layout<'a>,
    address: u32,
}

impl Test for HasByte<'_> {
    ghost bad = { λ s. HasIn s.layout s.address };

    ghost places = { λ s. s.layout.count };

    fn count(&self) -> u32 {
        self.layout.field_count()
    }

    fn fails(&self, place: u32) -> bool {
        // As in the test above.
        match self.layout.field(place) {
            Some(field) => field.has(self.address),
            None => false,
        }
    }
}

// The first field that has the byte.
fn owner(layout: Layout, address: u32) -> Option<u32>
    ensures { First (HasIn layout.entry address) layout.entry.count result }
{
    first_bad(&HasByte { layout, address })
}

// The byte of a field's reset value that lies at an address of its own.
fn reset_at(layout: Layout, address: u32, field: u32) -> Option<u8>
    requires { HasIn layout address field }
    ensures { result ≡ reset_at layout.entry address (Some field) }
{
    let field = layout.field(field)?;
    Some(field.byte((address - field.address) as u8))
}

// A new store with the fields of a layout.
fn place_in_new<S: Places>(layout: Layout) -> S
    ensures { S.Cells.cells result ≡ laid_cells empty layout.entry.body.now layout.entry.count }
{
    let mut store = S::new();
    layout.place(&mut store);
    store
}

// Where a field ends.
fn end_of(field: Option<Field>) -> u64
    ensures { result ≡ ending field }
{
    field.map_or(0, |field| field.end())
}

// Where the last field ends.
fn last_end(layout: Layout) -> u64
    ensures { result ≡ end_of layout.entry layout.entry.count }
{
    let mut end: u64 = 0;
    // A loop: a chain to `max` would be no shorter, since it has to say what no field at all gives.
    for k in 0..layout.field_count() {
        end = end.max(end_of(layout.field(k)));
    }
    end
}

// An end, no further than memory.
fn in_memory(end: u64) -> u32
    ensures { result ≡ min end 4096 }
{
    end.min(BYTES as u64) as u32
}

fn extent_of(field: Field) -> Extent
    ensures { result ≡ extent_of field }
{
    Extent {
        scalar: field.scalar,
        first: field.address,
        last: field.end().saturating_sub(1),
        odd: field.address % 2 == 1,
    }
}

impl<'a> Record<'a> {
    // The record of a body, or its refusal: by the rules of a layout, and then by 27 for a field past the memory.
    pub fn read(body: &'a [u8]) -> Result<Record<'a>, Refusal>
        ensures answer { Only (Allowed body.now) (answer_of result) }
        ensures layout { IfOk result (λ d. Reads body.now d.layout) }
    {
        let layout = Layout::read(body)?;
        try_rule(Rule::FieldInside, &PastMemory { layout })?;
        Ok(Record { layout })
    }

    // A new store in which the fields are placed.
    pub fn placed<S: Places>(&self) -> S
        ensures cells { (i : ℕ) → Shown self.now.layout.body.now i (S.Cells.cells result i) }
        ensures rows { (i : ℕ) (row : Row) → Drawn (S.Cells.cells result) self.now.layout i row → CellByField self.now.layout.body.now i row.field row.cell }
    {
        place_in_new(self.layout)
    }

    // The first byte of the record.
    pub fn start(&self) -> u32
        ensures { result ≡ two self.now.layout.body.now 0 }
    {
        self.layout.base()
    }

    // The end of its last field, and no further than memory.
    pub fn end(&self) -> u32
        ensures { Ends self.now.layout result }
    {
        in_memory(last_end(self.layout))
    }

    // The row of a byte of memory, by the cells of a store.
    pub fn row<S: Mirrored>(&self, store: &S, address: u32) -> Option<Row>
        ensures { MatchOption result (4096 ≤ address) (Drawn (S.Cells.cells store.now) self.now.layout address) }
    {
        let cell = store.cell(address)?;
        let field = owner(self.layout, address);
        // Not `and_then`: the closure would have to know that the field has the byte.
        let reset = match field {
            Some(k) => reset_at(self.layout, address, k),
            None => None,
        };
        Some(Row {
            address,
            field,
            cell,
            nibble: store.nibble(address)?,
            reset,
        })
    }

    // The bytes of a field.
    pub fn extent(&self, field: u32) -> Option<Extent>
        ensures { result ≡ option_map extent_of (field_in self.now.layout field) }
    {
        self.layout.field(field).map(extent_of)
    }
}
