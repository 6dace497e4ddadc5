// Two cards, left and right, that differ in the application alone: the same calls are made to both.
#![tactic(auto)]

mod both;
mod calls;
mod cards;
mod host;
mod one;

pub use both::run;
pub use calls::{Answer, Call, CommandCall, Done};
pub use cards::{Card, Pair, Ran};
