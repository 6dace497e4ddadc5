// Ciphers of 16-byte blocks.
ghost use Rattle.std.specs.Prelude.{◌≡◌};

use crate::block::BlockCipher;
use crate::triple::Triple;

// A block cipher whose blocks have 16 bytes.
pub trait Wide: BlockCipher {
    ghost wide: { Self.BLOCK ≡ 16 };
}

impl<C: Wide> Wide for Triple<C> {
    ghost wide = { C.wide };
}
