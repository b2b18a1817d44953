// A packed record, alone in a new memory, and the rows in which it is drawn.
#![tactic(auto)]

pub mod record;
pub mod row;
