// The card: load, power on, command, power off.
#![tactic(auto)]

mod answer;
mod load;
mod off;
mod powered;
mod refusal;
mod words;

pub use off::Off;
pub use powered::Powered;
pub use refusal::{HostRefusal, LoadRefusal};
