// The fare counter: an application that holds up to 32 fares and gives their sum.
#![tactic(auto)]

mod append;
mod counter;
mod fare;
mod run;
mod total;
mod written;

pub use counter::FareCounter;
pub use fare::Fare;
