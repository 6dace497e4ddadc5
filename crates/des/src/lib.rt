// DES (FIPS 46-3): a block cipher on eight bytes under a key of eight.
#![tactic(auto)]

mod block;
mod choose;
mod des;
mod octets;
mod permute;
mod places;
mod round;
mod rounds;
mod schedule;

pub use des::Des;
