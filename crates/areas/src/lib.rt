// The open areas of a memory, in order of address.
#![tactic(auto)]

pub mod area;
pub mod areas;
