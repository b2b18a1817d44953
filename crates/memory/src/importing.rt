// The import of packed records.
ghost use Rattle.std.specs.Prelude.{◌≡◌, ◌+◌, ◌≤◌, length, IfSome, IfOk, OnOk};
ghost use Rattle.first.specs.First.{Only, answer_of};
ghost use Rattle.areas.specs.Calls.{opened};
ghost use Rattle.layout.specs.Layouts.{Reads};
ghost use Rattle.layout.specs.Placing.{Inside};
ghost use Rattle.memory.specs.Bytes.{held};
ghost use Rattle.memory.specs.Import.{Allowed, Imported, Unhoused, after_import, laid_bytes, write_field};
ghost use Rattle.memory.specs.State.{view};
ghost use Rattle.memory.specs.Tied.{Tied};

use crate::Memory;
use crate::bytes::write;
use areas::areas::Areas;
use first::{Test, try_rule};
use layout::field::Field;
use layout::layout::Layout;
use refusal::{Refusal, Rule};
use store::halves::{Cells, Places};

// A field does not lie in one open area. A struct, for the reason at `first::Test`.
#[derive(Clone, Copy)]
struct Homeless<'l, 'a> {
    layout: Layout<'l>,
    areas: &'a Areas,
}

impl Test for Homeless<'_, '_> {
    ghost bad = { λ s. Unhoused (opened s.areas.now) s.layout.body.now };

    ghost places = { λ s. s.layout.count };

    fn count(&self) -> u32 {
        self.layout.field_count()
    }

    fn fails(&self, place: u32) -> bool {
        // Under `is_some_and` the check does not find what the closure decides.
        match self.layout.field(place) {
            Some(field) => !self.areas.lawful(field.address, field.scalar.size as u32),
            None => false,
        }
    }
}

// The layout of a body that may be imported.
fn check<'a>(areas: &Areas, body: &'a [u8]) -> Result<Layout<'a>, Refusal>
    ensures answer { Only (Allowed (opened areas.now) body.now) (answer_of result) }
    ensures layout { IfOk result (Reads body.now) }
{
    let layout = Layout::read(body)?;
    try_rule(Rule::FieldInside, &Homeless { layout, areas })?;
    Ok(layout)
}

fn write_field(bytes: &mut [u8; 4096], field: Option<Field>)
    requires { IfSome field (λ f. f.address + f.scalar.size ≤ 4096) }
    ensures { held bytes.new ≡ write_field (held bytes.old) field }
{
    if let Some(field) = field {
        write(
            bytes,
            field.address as usize,
            field.reset,
            field.scalar.size,
        );
    }
}

// Writes each field's reset value.
fn write_fields(bytes: &mut [u8; 4096], layout: &Layout<'_>)
    requires { Inside layout.now.body.now layout.now.count }
    ensures { held bytes.new ≡ laid_bytes (held bytes.old) layout.now.body.now layout.now.count }
{
    // A loop: after `for_each` a proof knows nothing of what the closure changed.
    for k in 0..layout.field_count() {
        write_field(bytes, layout.field(k));
    }
}

impl<S: Places> Memory<S> {
    // Places the fields of a layout body, each with its reset value, or refuses the body whole.
    pub fn import(&mut self, body: &[u8]) -> Result<(), Refusal>
        ensures answer { Only (Allowed (view S.Cells.cells self.old).areas body.now) result }
        ensures left { view S.Cells.cells self.new ≡ after_import (view S.Cells.cells self.old) body.now result }
        ensures law { OnOk result (Imported (view S.Cells.cells self.old) body.now (view S.Cells.cells self.new)) }
        ensures tied { Tied (view S.Cells.cells self.old) → Tied (view S.Cells.cells self.new) }
    {
        let layout = check(&self.areas, body)?;
        layout.place(&mut self.store);
        write_fields(&mut self.bytes, &layout);
        Ok(())
    }
}
