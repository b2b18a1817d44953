// Layouts from bodies, and what they hold.
ghost use Rattle.std.specs.Prelude.{◌≡◌, ℕ, ◌^◌, ◌<◌, true, is_some, IfOk, if◌then◌else◌, None, MatchResult, OnOk, nat_lt};
ghost use Rattle.refusal.specs.declared.Rule.TheVariants.{LayoutLength as LayoutLengthRule};
ghost use Rattle.first.specs.First.{Only, answer_of};
ghost use Rattle.little_endian.specs.Numbers.{two};
ghost use Rattle.layout.specs.Fields.{Measured, address_of, count_of, field_at};
ghost use Rattle.layout.specs.Layouts.{Reads};
ghost use Rattle.layout.specs.Rules.{Allowed};

use super::rules::{Shares, Unfits};
use crate::field::Field;
use crate::layout::Layout;
use first::{place_count, try_two};
use little_endian::{byte_at, u16_at, u32_at};
use refusal::{Refusal, Rule};
use store::scalars::Scalar;

// The number of fields that a body has, or the refusal of its length.
fn measure(body: &[u8]) -> Result<u32, Refusal>
    ensures { MatchResult result (λ n. Measured body.now × (n ≡ count_of body.now)) (λ e. (Measured body.now → ⊥) × (e ≡ (LayoutLengthRule, 0))) }
{
    match place_count(body.len(), 2, 7, 64) {
        Some(count) => Ok(count as u32),
        None => Err((Rule::LayoutLength, 0)),
    }
}

// The address of the field that begins at `start` in a body.
fn address_at(body: &[u8], start: usize) -> u32
    requires { start < 2 ^ 35 }
    ensures { result ≡ address_of body.now start }
{
    u16_at(body, 0) as u32 + u16_at(body, start + 1) as u32
}

// Field `k` of a body: none where there is no such letter.
pub(super) fn field_at(body: &[u8], k: u32) -> Option<Field>
    ensures { result ≡ field_at body.now k }
{
    let start = 2 + 7 * k as usize;
    let scalar = Scalar::from_letter(byte_at(body, start))?;
    Some(Field {
        scalar,
        address: address_at(body, start),
        reset: u32_at(body, start + 3),
    })
}

impl<'a> Layout<'a> {
    // The layout of a body, or its refusal: each rule is tried over all fields before the next.
    pub fn read(body: &'a [u8]) -> Result<Layout<'a>, Refusal>
        ensures answer { Only (Allowed body.now) (answer_of result) }
        ensures layout { IfOk result (Reads body.now) }
        ensures fields { OnOk result (((k : ℕ) → k < count_of body.now → is_some (field_at body.now k) ≡ true)) }
    {
        let count = measure(body)?;
        try_two(
            Rule::FieldForm,
            &Unfits { body, count },
            Rule::FieldsApart,
            &Shares { body, count },
        )?;
        Ok(Layout { body, count })
    }

    pub fn base(&self) -> u32
        ensures { result ≡ two self.now.body.now 0 }
    {
        u16_at(self.body, 0) as u32
    }

    pub fn field_count(&self) -> u32
        ensures { result ≡ self.now.count }
    {
        self.count
    }

    // Field `k`, and none past the last.
    pub fn field(&self, k: u32) -> Option<Field>
        ensures { result ≡ (if nat_lt k self.now.count then field_at self.now.body.now k else None) }
    {
        if k < self.count {
            field_at(self.body, k)
        } else {
            None
        }
    }
}
