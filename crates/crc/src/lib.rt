// CRC-32 as an integrity mechanism.
#![tactic(auto)]

mod check;
mod table;

pub use check::Crc32;
