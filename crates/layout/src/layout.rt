// A layout: the fields that a body places.
ghost use Rattle.std.specs.Prelude.{◌≡◌};
ghost use Rattle.layout.specs.Fields.{count_of};
ghost use Rattle.layout.specs.Rules.{Accepted};

mod placing;
mod reading;
mod rules;

// A body that the rules accept: a base address of 2 bytes, and then `count` fields of 7.
#[derive(Clone, Copy)]
pub struct Layout<'a> {
    body: &'a [u8],
    count: u32,
    ghost whole: { count ≡ count_of body.now },
    ghost accepted: { Accepted body.now },
}
