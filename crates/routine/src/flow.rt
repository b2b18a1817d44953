// The next steps as a graph, and the steps that a path may be asked not to pass.
ghost use Rattle.std.specs.Prelude.{◌≡◌, ◌≤◌, true, false, MatchBool, IfSome};
ghost use Rattle.steps.specs.Tables.{sets as set_by};
ghost use Rattle.routine.specs.Flow.{step_at, Either};
ghost use Rattle.routine.specs.Graph.{two_slots, slot as slot_of, below, leads as leads_in, is_set};
ghost use Rattle.routine.specs.Claims.{checks_it};
ghost use Rattle.routine.specs.Text.{text_of};

use crate::text::Text;
use search::{Graph, Stops};
use steps::step::Step;
use store::scalars::Scalar;

#[derive(Clone, Copy)]
pub(crate) struct Flow<'a> {
    pub(crate) text: &'a Text,
}

// A next step as a node, if it is a step of the routine.
fn node_below(next: Option<u32>, count: u32) -> Option<u8>
    requires { count ≤ 256 }
    ensures { result ≡ below count next }
{
    next.filter(|step| *step < count).map(|step| step as u8)
}

fn in_slot(nexts: (Option<u32>, Option<u32>), slot: u32) -> Option<u32>
    ensures { result ≡ slot_of nexts slot }
{
    if slot == 0 { nexts.0 } else { nexts.1 }
}

impl Graph for Flow<'_> {
    ghost slots = { λ _. two_slots };

    ghost leads = { λ s. leads_in (text_of s.text.now) };

    fn slot_count(&self, _node: u8) -> u32 {
        2
    }

    fn slot(&self, node: u8, slot: u32) -> Option<u8> {
        let nexts = self.text.step(node as u32).nexts(node as u16);
        node_below(in_slot(nexts, slot), self.text.len())
    }
}

pub(crate) fn sets_value(step: Step, value: u32) -> bool
    ensures { result ≡ is_set value (set_by step) }
{
    step.sets().is_some_and(|(own, _)| own as u32 == value)
}

// Whether one of two passes a test.
pub(crate) fn either<T: Drop, F: Fn(T) -> bool>(pair: (Option<T>, Option<T>), test: F) -> bool
    requires { F.IsAlwaysCallable test }
    ensures { MatchBool result (Either (λ x. F.post test x true) pair) (IfSome pair.0 (λ x. F.post test x false) × IfSome pair.1 (λ x. F.post test x false)) }
{
    pair.0.is_some_and(&test) || pair.1.is_some_and(&test)
}

// Whether the step checks the value, in A or in B.
pub(crate) fn checks_value(step: Step, value: u32) -> bool
    ensures { result ≡ checks_it value step }
{
    either(step.checks(), |own| own == value)
}

// The steps that set a value.
// Not one struct with `Checkers` over a test: `stop` is a function, and of a closure only a relation is known; a trait for the test needs the same two impls.
#[derive(Clone, Copy)]
pub(crate) struct Setters<'a> {
    pub(crate) text: &'a Text,
    pub(crate) value: u32,
}

impl Stops for Setters<'_> {
    ghost stop = { λ s i. is_set s.value (set_by (step_at (text_of s.text.now) i)) };

    fn is_stop(&self, node: u8) -> bool {
        sets_value(self.text.step(node as u32), self.value)
    }
}

// The steps that check a value.
#[derive(Clone, Copy)]
pub(crate) struct Checkers<'a> {
    pub(crate) text: &'a Text,
    pub(crate) value: u32,
}

impl Stops for Checkers<'_> {
    ghost stop = { λ s i. checks_it s.value (step_at (text_of s.text.now) i) };

    fn is_stop(&self, node: u8) -> bool {
        checks_value(self.text.step(node as u32), self.value)
    }
}
