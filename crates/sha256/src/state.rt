// A digest in progress.
use compression::Eight;

// What is kept of the bytes taken so far: the eight words, the block that is being filled, and the count. How far the block is
// filled is the count modulo 64, so no length stands beside it.
#[derive(Clone, Copy)]
pub struct Sha256 {
    pub(crate) chain: Eight,
    pub(crate) block: [u8; 64],
    pub(crate) count: u64,
}
