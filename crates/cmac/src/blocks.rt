// The length of a block, and so of a check.
pub const BLOCK: usize = 16;
