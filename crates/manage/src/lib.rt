// MANAGE SECURE CHANNEL: objects gathered from command blocks, carried out, and replies given in blocks. A check that refuses
// leaves at once with its status word, so the checks stand in the order in which they refuse.
#![tactic(auto)]

mod card_core;
mod gather;
mod give;
mod pending;
mod same;
mod tell;
mod told;

pub use card_core::Core;
pub use pending::{Gathered, Pending, Waiting};
pub use told::Told;
