// AES-128 (FIPS 197), by tables of words.
#![tactic(auto)]

mod aes128;
mod blocks;
mod column;
mod expansion;
mod round;
mod state;
mod transfer;

pub use aes128::Aes128;
