// Numbers and bytes as people write them: decimals, and pairs of hexadecimal digits.
#![tactic(auto)]

mod decimal;
mod hexadecimal;

pub use decimal::read_decimal;
pub use hexadecimal::{read_array, read_hexadecimal};
