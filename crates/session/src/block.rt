// Blocks: whether one is the same as another.
ghost use Rattle.std.specs.Prelude.{◌≡◌, ◌≤◌, length};
ghost use Rattle.law.specs.Rows.{same_bytes};
ghost use Rattle.law.specs.Session.{same_block};
ghost use Rattle.session.specs.View.{block_of};

use crate::state::Block;
use buffer::Buffer;

// Whether two strings of bytes are equal. Stays beside `==`: its contract has the law's word for it, which `is` cites.
pub fn same_bytes(a: &[u8], b: &[u8]) -> bool
    ensures { result ≡ same_bytes a.now b.now }
{
    a == b
}

impl Block {
    // The block with these bytes.
    pub fn of(p2: u8, bytes: &[u8]) -> Block
        requires { length bytes.now ≤ 288 }
        ensures { block_of result ≡ record { p2 = p2; bytes = bytes.now } }
    {
        Block {
            p2,
            bytes: Buffer::from_slice(bytes),
        }
    }

    // Whether this is the block with these bytes: those of a body, of which no Block is made to be compared.
    pub fn is(&self, p2: u8, bytes: &[u8]) -> bool
        ensures { result ≡ same_block (block_of self.now) p2 bytes.now }
    {
        self.p2 == p2 && same_bytes(self.bytes.as_slice(), bytes)
    }
}
