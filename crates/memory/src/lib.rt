// Memory: 4,096 bytes, a tag store and the open areas.
#![tactic(auto)]

use areas::areas::Areas;

mod bytes;
mod calls;
mod importing;
pub mod links;
mod questions;

// A memory over a store. What ties its tags to its areas is no fact of the type: a write of the kind unallocated
// breaks it. It is a law about every memory that other calls can make.
#[derive(Drop)]
pub struct Memory<S> {
    bytes: [u8; 4096],
    store: S,
    areas: Areas,
}
