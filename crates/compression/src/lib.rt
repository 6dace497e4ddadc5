// The compression of SHA-256 (FIPS 180-2): its functions on words, its constants, and one block into eight words.
#![tactic(auto)]

mod block;
mod letters;
mod tables;
mod words;

pub use block::compress;
pub use letters::Eight;
pub use tables::initial;
