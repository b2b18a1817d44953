// Tag stores: the kinds and cells that they keep, their two halves, and what the halves promise.
#![tactic(auto)]

pub mod halves;
pub mod laying;
pub mod placing;
pub mod reading;
pub mod scalars;
pub mod tags;
