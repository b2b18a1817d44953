// The placing of a layout's fields.
ghost use Rattle.std.specs.Prelude.{◌≡◌};
ghost use Rattle.layout.specs.Placing.{Laid, laid_cells, put_field};

use super::reading::field_at;
use crate::field::Field;
use crate::layout::Layout;
use store::halves::{Cells, Places};

fn place_field<S: Places>(store: &mut S, field: Option<Field>)
    ensures { S.Cells.cells store.new ≡ put_field (S.Cells.cells store.old) field }
{
    if let Some(field) = field {
        let _ = store.place(field.address, field.scalar.kind.into(), field.scalar.size);
    }
}

impl Layout<'_> {
    // Places each field's kind and size at its address, in order. A placing that the store refuses leaves it as it was.
    pub fn place<S: Places>(&self, store: &mut S)
        ensures cells { S.Cells.cells store.new ≡ laid_cells (S.Cells.cells store.old) self.now.body.now self.now.count }
        ensures law { Laid (S.Cells.cells store.old) self.now.body.now (S.Cells.cells store.new) }
    {
        // A loop: after `for_each` a proof knows nothing of what the closure changed.
        for k in 0..self.count {
            place_field(store, field_at(self.body, k));
        }
    }
}
