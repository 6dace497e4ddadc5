// The tables of AES: substitution, its inverse, and words of products. Four look-ups in four tables with four equations, which
// share nothing but the index.
#![tactic(auto)]

mod inverse;
mod products;
mod substitution;

pub use inverse::inv_sub_byte;
pub use products::{inv_mix, sub_mix};
pub use substitution::sub_byte;
