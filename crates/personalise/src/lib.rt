// Key loads: the text that the personaliser gives, and the key that it means.
#![tactic(auto)]

mod key_load;
mod limit;
mod load;
mod reader;
mod reference;
mod refusal;

pub use key_load::KeyLoad;
pub use load::read;
pub use refusal::Refusal;
