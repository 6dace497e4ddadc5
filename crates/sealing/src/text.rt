// Texts.
ghost use Rattle.std.specs.Prelude.{◌≤◌, length};

use crate::suite::Direction;

// A text that can be sealed: which way it goes, its transaction's number, and a body of 2 to 261 bytes.
#[derive(Clone, Copy)]
pub struct Text<'a> {
    pub direction: Direction,
    pub number: u64,
    pub body: &'a [u8],
    pub ghost least: { 2 ≤ length body.now },
    pub ghost most: { length body.now ≤ 261 },
}
