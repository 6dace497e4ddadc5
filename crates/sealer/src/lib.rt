// The sealers: the real one, and the one for the bench.
#![tactic(auto)]

mod bench;
mod keys;
mod real;

pub use bench::BenchSealer;
pub use real::RealSealer;
