// The open areas as a graph: one leads to another if a pointer in it holds an address there.
ghost use Rattle.std.specs.Prelude.{◌≡◌, length};

use areas::areas::Areas;

mod graph;
mod reaching;

// What the graph is made of. It needs only the asking half of a store.
// The bytes are a slice with `long` beside it, since the type is public: an array would ask more of whoever makes a view.
#[derive(Drop)]
pub struct Links<'a, C> {
    pub bytes: &'a [u8],
    pub store: &'a C,
    pub areas: &'a Areas,
    ghost long: { length bytes.now ≡ 4096 },
}
