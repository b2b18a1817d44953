// The bodies of packed records: their fields, the rules that a body keeps, and the placing of its fields.
#![tactic(auto)]

pub mod field;
pub mod layout;
