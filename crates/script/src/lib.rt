// A script of calls on two cards: what its lines say.
#![tactic(auto)]

mod line;
mod memory;
mod script;
mod setup;

pub use line::{CommandLine, Step};
pub use memory::all_are;
pub use script::{Script, ScriptError, Section};
pub use setup::{Kept, Seals, Setup};
