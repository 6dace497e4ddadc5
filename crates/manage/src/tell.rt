// Telling a block and a status word, and writing what is told.
ghost use Rattle.std.specs.Prelude.{◌≡◌, ◌≤◌, [], length};
ghost use Rattle.apdu.specs.Reply.{fronted, reply};
ghost use Rattle.manage.specs.Told.{bytes_of};

use crate::told::Told;
use apdu::{Status, put_reply};

// A status word alone.
impl<'a> From<Status> for Told<'a> {
    ghost from_gives = { λ s t. bytes_of t ≡ reply [] s };

    fn from(status: Status) -> Told<'a> {
        Told { block: &[], status }
    }
}

impl<'a> Told<'a> {
    // These bytes, and the status word behind them.
    pub fn block(bytes: &'a [u8], status: Status) -> Told<'a>
        requires { length bytes.now ≤ 256 }
        ensures { bytes_of result ≡ reply bytes.now status }
    {
        Told {
            block: bytes,
            status,
        }
    }

    // Writes what is told at the start of the buffer, leaves the rest, and gives its length.
    pub fn write(&self, reply: &mut [u8]) -> usize
        requires { 258 ≤ length reply.old }
        ensures len { result ≡ length (bytes_of self.now) }
        ensures written { reply.new ≡ fronted (bytes_of self.now) reply.old }
    {
        put_reply(reply, self.block, self.status)
    }
}
