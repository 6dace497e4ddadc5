// The state of the cipher.

// Four columns; the first row stands in the highest byte of each.
#[derive(Clone, Copy)]
pub struct State(pub [u32; 4]);
