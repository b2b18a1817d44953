// What makes a field bad, one test a rule. Each is a struct, for the reason at `first::Test`.
// Each test matches on the field: under `is_some_and` the check does not find what the closure decides.
ghost use Rattle.std.specs.Option.{MatchOption};
ghost use Rattle.layout.specs.Fields.{field_at};
ghost use Rattle.layout.specs.Rules.{Common, Shared, Unfit};

use super::reading::field_at;
use crate::field::Field;
use first::{Test, any_bad};

// There is no such letter, or the reset value is too large for it.
#[derive(Clone, Copy)]
pub(super) struct Unfits<'a> {
    pub(super) body: &'a [u8],
    pub(super) count: u32,
}

impl Test for Unfits<'_> {
    ghost bad = { λ s. Unfit s.body.now };

    ghost places = { λ s. s.count };

    fn count(&self) -> u32 {
        self.count
    }

    fn fails(&self, place: u32) -> bool {
        match field_at(self.body, place) {
            Some(field) => field.is_too_large(),
            None => true,
        }
    }
}

// A field before another shares a byte with it.
#[derive(Clone, Copy)]
struct Meets<'a> {
    body: &'a [u8],
    field: Field,
    before: u32,
}

impl Test for Meets<'_> {
    ghost bad = { λ s j. MatchOption (field_at s.body.now j) ⊥ (λ e. Common e s.field) };

    ghost places = { λ s. s.before };

    fn count(&self) -> u32 {
        self.before
    }

    fn fails(&self, place: u32) -> bool {
        match field_at(self.body, place) {
            Some(earlier) => earlier.meets(&self.field),
            None => false,
        }
    }
}

// The field shares a byte with an earlier one.
#[derive(Clone, Copy)]
pub(super) struct Shares<'a> {
    pub(super) body: &'a [u8],
    pub(super) count: u32,
}

impl Test for Shares<'_> {
    ghost bad = { λ s. Shared s.body.now };

    ghost places = { λ s. s.count };

    fn count(&self) -> u32 {
        self.count
    }

    fn fails(&self, place: u32) -> bool {
        let body = self.body;
        match field_at(body, place) {
            Some(field) => any_bad(&Meets {
                body,
                field,
                before: place,
            }),
            None => false,
        }
    }
}
