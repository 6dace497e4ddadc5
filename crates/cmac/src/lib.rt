// CMAC as an integrity mechanism, over any cipher of 16-byte blocks.
#![tactic(auto)]

mod absorb;
mod blocks;
mod check;
mod double;
mod last;

pub use check::Cmac;
