// What a user of cells may rely on: laws of memory and of placing, and code over any store that is proved from the promise of its halves alone.
#![tactic(auto)]

ghost use Rattle.std.specs.Prelude.{◌≡◌, if◌then◌else◌, Ok, Err};
ghost use Rattle.refusal.specs.declared.Rule.TheVariants.{Placing as PlacingRule};
ghost use Rattle.store.specs.Cells.{kind_of, refused, put, reply};
ghost use Rattle.store_laws.specs.Listed.{Listing};
ghost use Rattle.store_laws.specs.Laws.{WholeObjects, Placing, Reading, read_back};

use refusal::{Refusal, Rule};
use store::halves::{Cells, Places};
use store::reading::kind_read;
use store::tags::Kind;

// The laws of every memory that a store can mean. The call does nothing: its contract is the laws.
pub fn laws_of_memory()
    ensures objects { WholeObjects }
    ensures list { Listing }
{}

// The laws of placing, and of reading after it.
pub fn laws_of_placing()
    ensures placing { Placing }
    ensures reading { Reading }
{}

// What is to be placed: an address, a kind and a size. The kind is its number, as in `place`.
#[derive(Clone, Copy)]
pub struct Order {
    pub address: u32,
    pub kind: u8,
    pub size: u8,
}

// Places twice, and answers what each placing answered.
pub fn place_twice<S: Places>(
    store: &mut S,
    first: Order,
    second: Order,
) -> (Result<(), Refusal>, Result<(), Refusal>)
    ensures answers { result ≡ (reply first.address first.kind first.size, reply second.address second.kind second.size) }
    ensures left { S.Cells.cells store.new ≡ put (put (S.Cells.cells store.old) first.address first.kind first.size) second.address second.kind second.size }
{
    let a = store.place(first.address, first.kind, first.size);
    let b = store.place(second.address, second.kind, second.size);
    (a, b)
}

// Places, and reads the same bytes. The kind is its number, as in `place`.
pub fn place_and_read<S: Places>(
    store: &mut S,
    address: u32,
    kind: u8,
    size: u8,
) -> Result<Kind, Refusal>
    ensures answer { result ≡ (if refused address kind size then Err (PlacingRule, 0) else Ok (read_back (kind_of kind) size)) }
    ensures left { S.Cells.cells store.new ≡ put (S.Cells.cells store.old) address kind size }
{
    store.place(address, kind, size)?;
    // A match, so that an edit that answers another kind is refused for that.
    match kind_read(store, address, size) {
        Some(read) => Ok(read),
        None => Err((Rule::Placing, 0)),
    }
}
