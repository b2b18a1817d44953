// What makes a step bad, one test a rule. Each is a struct, for the reason at `first::Test`.
ghost use Rattle.std.specs.Prelude.{◌≡◌, ◌+◌, ◌<◌, ◌≤◌, false, length, Decides};
ghost use Rattle.first.specs.First.{Nowhere};
ghost use Rattle.search.specs.Paths.{Edge, Unstopped};
ghost use Rattle.steps.specs.Tables.{sets as set_by, targets as targets_of, terminator};
ghost use Rattle.routine.specs.Flow.{step_at, Either, Sets};
ghost use Rattle.routine.specs.Graph.{two_slots, leads as leads_in, is_set, is_other};
ghost use Rattle.routine.specs.Rules.{Malformed, SetTwice, SetsOther, Unfit, UnfitOperand, Astray, Unset, UnsetOperand};
ghost use Rattle.routine.specs.Text.{text_of};

use crate::flow::{Flow, Setters, either, sets_value};
use crate::text::{Text, step_in};
use first::{Test, any_bad};
use search::NodeGuard;
use steps::step::Takes;
use store::scalars::Scalar;

// 3: the bytes are not those of a well-formed step.
#[derive(Clone, Copy)]
pub(crate) struct Malforms<'a> {
    pub(crate) body: &'a [u8],
    pub(crate) count: u16,
}

impl Test for Malforms<'_> {
    ghost bad = { λ s. Malformed s.body.now };

    ghost places = { λ s. s.count };

    fn count(&self) -> u32 {
        self.count as u32
    }

    fn fails(&self, place: u32) -> bool {
        step_in(self.body, place as usize).is_none()
    }
}

// A step below another sets a value.
#[derive(Clone, Copy)]
pub(crate) struct Setting<'a> {
    pub(crate) text: &'a Text,
    pub(crate) value: u32,
    pub(crate) below: u32,
}

impl Test for Setting<'_> {
    ghost bad = { λ s. Sets (text_of s.text.now) s.value };

    ghost places = { λ s. s.below };

    fn count(&self) -> u32 {
        self.below
    }

    fn fails(&self, place: u32) -> bool {
        sets_value(self.text.step(place), self.value)
    }
}

// 4: an earlier step sets the same value.
#[derive(Clone, Copy)]
pub(crate) struct SetsTwice<'a> {
    pub(crate) text: &'a Text,
}

impl Test for SetsTwice<'_> {
    ghost bad = { λ s. SetTwice (text_of s.text.now) };

    ghost places = { λ s. length (text_of s.text.now) };

    fn count(&self) -> u32 {
        self.text.len()
    }

    fn fails(&self, place: u32) -> bool {
        self.text.step(place).sets().is_some_and(|(value, _)| {
            any_bad(&Setting {
                text: self.text,
                value: value as u32,
                below: place,
            })
        })
    }
}

// A step sets the value of an operand to a type that the operand does not take.
#[derive(Clone, Copy)]
struct SetsWrong<'a> {
    text: &'a Text,
    used: (u32, Takes),
}

fn is_other(used: (u32, Takes), set: Option<(u8, Scalar)>) -> bool
    ensures { result ≡ is_other used set }
{
    set.is_some_and(|(value, scalar)| value as u32 == used.0 && !used.1.accepts(scalar))
}

impl Test for SetsWrong<'_> {
    ghost bad = { λ s. SetsOther (text_of s.text.now) s.used };

    ghost places = { λ s. length (text_of s.text.now) };

    fn count(&self) -> u32 {
        self.text.len()
    }

    fn fails(&self, place: u32) -> bool {
        is_other(self.used, self.text.step(place).sets())
    }
}

fn is_set_nowhere(text: &Text, value: u32) -> bool
    ensures { Decides result (Nowhere (Sets (text_of text.now) value) (length (text_of text.now))) }
{
    !any_bad(&Setting {
        text,
        value,
        below: text.len(),
    })
}

fn is_unfit(text: &Text, used: (u32, Takes)) -> bool
    ensures { Decides result (Unfit (text_of text.now) used) }
{
    is_set_nowhere(text, used.0) || any_bad(&SetsWrong { text, used })
}

// 5: a value operand is never set, or is of another type.
#[derive(Clone, Copy)]
pub(crate) struct Unfits<'a> {
    pub(crate) text: &'a Text,
}

impl Test for Unfits<'_> {
    ghost bad = { λ s. UnfitOperand (text_of s.text.now) };

    ghost places = { λ s. length (text_of s.text.now) };

    fn count(&self) -> u32 {
        self.text.len()
    }

    fn fails(&self, place: u32) -> bool {
        either(
            self.text.step(place).uses(),
            |used| is_unfit(self.text, used),
        )
    }
}

fn has_target_past(text: &Text, place: u32) -> bool
    ensures { Decides result (Either (λ j. length (text_of text.now) ≤ j) (targets_of (step_at (text_of text.now) place))) }
{
    let count = text.len();
    either(text.step(place).targets(), |step| count <= step as u32)
}

fn is_open_end(text: &Text, place: u32) -> bool
    ensures { Decides result ((place + 1 ≡ length (text_of text.now)) × (terminator (step_at (text_of text.now) place) ≡ false)) }
{
    place as u64 + 1 == text.len() as u64 && !text.step(place).is_terminator()
}

// 6: a target is past the routine, or the last step leads on.
#[derive(Clone, Copy)]
pub(crate) struct Strays<'a> {
    pub(crate) text: &'a Text,
}

impl Test for Strays<'_> {
    ghost bad = { λ s. Astray (text_of s.text.now) };

    ghost places = { λ s. length (text_of s.text.now) };

    fn count(&self) -> u32 {
        self.text.len()
    }

    fn fails(&self, place: u32) -> bool {
        has_target_past(self.text, place) || is_open_end(self.text, place)
    }
}

// Whether a path leads from step 0 to step `to` with no step between them that sets the value.
fn reaches_unset(text: &Text, value: u32, to: u8) -> bool
    ensures { Decides result (Unstopped (Edge two_slots (leads_in (text_of text.now))) (λ i. is_set value (set_by (step_at (text_of text.now) i))) 0 to) }
{
    let mut marks = [0; 256];
    let mut guard = NodeGuard::over(&mut marks);
    guard.follow_unstopped(&Flow { text }, &Setters { text, value }, 0);
    guard.is_marked(to)
}

// Whether a path leads from step 0 to step `to` with the setting of the value nowhere before its end.
// Step 0 is before the end, and the search does not count it.
fn is_unset(text: &Text, value: u32, to: u8) -> bool
    ensures { Decides result (Unset (text_of text.now) value to) }
{
    !sets_value(text.step(0), value) && reaches_unset(text, value, to)
}

// 7: a value operand stands at step 0, or can be used before it is set.
#[derive(Clone, Copy)]
pub(crate) struct Lacks<'a> {
    pub(crate) text: &'a Text,
}

impl Test for Lacks<'_> {
    ghost bad = { λ s. UnsetOperand (text_of s.text.now) };

    ghost places = { λ s. length (text_of s.text.now) };

    fn count(&self) -> u32 {
        self.text.len()
    }

    fn fails(&self, place: u32) -> bool {
        if place >= self.text.len() {
            return false;
        }
        let to = place as u8;
        either(
            self.text.step(place).uses(),
            |(value, _)| to == 0 || is_unset(self.text, value, to),
        )
    }
}
