// A packed record whose fields all lie inside the memory.
ghost use Rattle.first.specs.First.{Nowhere};
ghost use Rattle.layout.specs.Fields.{count_of};
ghost use Rattle.drawing.specs.Fields.{Past};

mod asking;

use layout::layout::Layout;

#[derive(Clone, Copy)]
pub struct Record<'a> {
    layout: Layout<'a>,
    ghost inside: { Nowhere (Past layout.body.now) (count_of layout.body.now) },
}
