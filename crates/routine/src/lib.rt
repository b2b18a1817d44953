// Routines: bodies that the rules accept, and the verdict on claims about their checks.
#![tactic(auto)]

mod flow;
pub mod routine;
mod rules;
mod text;
pub mod verdict;

// The guard of the marks that a verdict takes.
pub use search::Marks;
