// TRANSACT DATA: blocks of sealed commands, and the answers to them. A check that refuses leaves at once with its status word,
// so the checks stand in the order in which they refuse.
#![tactic(auto)]

mod accepted;
mod complete;
mod fetch;
mod outcome;
mod parts;
mod receive;
mod started;

pub use accepted::Accepted;
pub use parts::Parts;
pub use started::Started;
