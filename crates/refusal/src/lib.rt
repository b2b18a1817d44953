// Why a call is refused.
#![tactic(auto)]

ghost use Rattle.std.specs.Prelude.{◌≡◌, Some, decimal};
ghost use Rattle.refusal.specs.Refusals.{number_of};

use std::fmt;

// A rule that refuses what breaks it. Each has a number, by which callers and the output know it.
#[derive(Clone, Copy, PartialEq, Eq, PartialOrd, Ord, Hash, Debug)]
pub enum Rule {
    // A map file: its header, its entries, and what they name.
    MapFile = 1,
    // The length of a routine.
    RoutineLength = 2,
    // A step that is well formed.
    StepForm = 3,
    // A value that is set by one step.
    SetOnce = 4,
    // An operand of a type that the step takes.
    OperandType = 5,
    // A step that leads to a step.
    Target = 6,
    // A value that is set before it is used.
    SetBefore = 7,
    // The length of a layout.
    LayoutLength = 8,
    // A field that has a type, and a reset value that fits it.
    FieldForm = 9,
    // A field that shares no byte with an earlier one.
    FieldsApart = 10,
    // An area that has bytes, all in memory.
    AreaExtent = 11,
    // Marks enough for a search.
    Marks = 14,
    // A placing that a store grants.
    Placing = 15,
    // An area that shares no byte with an open one.
    AreasApart = 24,
    // Room for one more area.
    AreaRoom = 25,
    // An area that is open.
    AreaOpen = 26,
    // A field that lies where a record may lie.
    FieldInside = 27,
}

// The rule that is broken, and the first place that breaks it, 0 where none is named.
pub type Refusal = (Rule, u32);

impl From<Rule> for u8 {
    ghost from_gives = { λ rule number. number ≡ number_of rule };

    fn from(rule: Rule) -> u8 {
        rule as u8
    }
}

// The rule's number.
impl fmt::Display for Rule {
    ghost output = { λ rule. Some (decimal (number_of rule)) };

    fn fmt<W: fmt::Write>(&self, f: &mut fmt::Formatter<W>) -> fmt::Result {
        let number = u8::from(*self);
        write!(f, "{number}")
    }
}

// A refusal as callers and the output know it: the rule's number, and the place.
pub fn numbered(refusal: Refusal) -> (u8, u32)
    ensures { result ≡ (number_of refusal.0, refusal.1) }
{
    let (rule, place) = refusal;
    (rule.into(), place)
}
