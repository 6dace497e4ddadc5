// Taking whole blocks into the state.
ghost use Rattle.std.specs.Prelude.{◌≡◌, ◌/◌, length};
ghost use Rattle.cmac.specs.Cmac.{absorbed};

use crate::blocks::BLOCK;
use byte_lists::join;
use cipher::{BlockCipher, Wide};

// Takes the whole blocks of the text into the state, one after the other.
pub fn absorb<C: Wide>(cipher: &C, state: &mut [u8; BLOCK], text: &[u8])
    ensures { state.new ≡ absorbed (C.enc cipher.now) (length text.now / 16) state.old text.now }
{
    let (blocks, _) = text.as_chunks::<BLOCK>();
    for block in blocks {
        join(state, block);
        cipher.encrypt(state);
    }
}
