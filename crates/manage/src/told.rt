// What is told to a command.
ghost use Rattle.std.specs.Prelude.{◌≤◌, length};

use apdu::Status;

// A block of up to 256 bytes, and the status word behind it. The block is lent: it is written where the host wants it, and stands
// nowhere else.
#[derive(Clone, Copy)]
pub struct Told<'a> {
    pub block: &'a [u8],
    pub status: Status,
    pub ghost few: { length block.now ≤ 256 },
}
