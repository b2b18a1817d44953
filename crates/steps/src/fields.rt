// The fields of a step's 16 bytes.
use crate::step::Operand;

// An operand field is nothing, a value or a literal.
#[derive(Clone, Copy)]
pub(crate) struct Fields {
    pub(crate) code: u8,
    pub(crate) letter: u8,
    pub(crate) value: u8,
    pub(crate) a: Option<Operand>,
    pub(crate) b: Option<Operand>,
    pub(crate) first: u16,
    pub(crate) second: u16,
}
