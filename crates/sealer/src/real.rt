// The real sealer.
ghost use Rattle.std.specs.Prelude.{◌≡◌, ◌≤◌, length};
ghost use Rattle.envelope.specs.Envelope.{enciphered, deciphered};
ghost use Rattle.sealing.specs.Lent.{Seals, OpensTo, as_text};
ghost use Rattle.sealer.specs.KeyBytes.{checks, check_len};
ghost use Rattle.sealer.specs.Sealers.{real};
ghost use Rattle.sealer.specs.Lawful.{real_faithful};

use crate::keys::{key_at, three_key, two_key};
use aes::Aes128;
use cipher::BlockCipher;
use cmac::Cmac;
use crc::Crc32;
use envelope::{open_under, seal_under};
use sealing::{Cipher, Mechanism, Opened, Sealer, Suite, Text};

// Seals with the suite's cipher and mechanism.
#[derive(Clone, Copy)]
pub struct RealSealer;

// Sealing and opening match on mechanism and cipher each for itself. The lengths of a check and of a block belong to their types,
// so no one value stands for all of them; and what is done with each is generic in it, so no closure can be handed in.

// Seals under a cipher, with the mechanism's check.
fn seal_by<C: BlockCipher>(
    cipher: &C,
    mechanism: Mechanism,
    keys: &[u8; 40],
    text: Text<'_>,
    out: &mut [u8],
) -> usize
    requires { 288 ≤ length out.old }
    ensures { Seals (enciphered C.BLOCK (C.enc cipher.now) (checks mechanism keys.now) (as_text text.entry)) out.old out.new result }
{
    match mechanism {
        Mechanism::Crc32 => seal_under(cipher, &Crc32, text, out),
        Mechanism::Cmac => seal_under(cipher, &Cmac::new(Aes128::new(key_at(keys, 24))), text, out),
    }
}

// Opens under a cipher, with the mechanism's check.
fn open_by<C: BlockCipher>(
    cipher: &C,
    mechanism: Mechanism,
    keys: &[u8; 40],
    string: &mut [u8],
) -> Option<Opened>
    ensures { OpensTo (deciphered C.BLOCK (check_len mechanism) (C.dec cipher.now) (checks mechanism keys.now) string.old) string.old string.new result }
{
    match mechanism {
        Mechanism::Crc32 => open_under(cipher, &Crc32, string),
        Mechanism::Cmac => open_under(cipher, &Cmac::new(Aes128::new(key_at(keys, 24))), string),
    }
}

impl Sealer for RealSealer {
    ghost seals = { real };

    ghost faithful = { real_faithful };

    fn seal(&self, suite: Suite, keys: &[u8; 40], text: Text<'_>, out: &mut [u8]) -> usize {
        let mechanism = suite.mechanism;
        match suite.cipher {
            Cipher::TwoKey => seal_by(&two_key(keys), mechanism, keys, text, out),
            Cipher::ThreeKey => seal_by(&three_key(keys), mechanism, keys, text, out),
            Cipher::Aes => seal_by(&Aes128::new(key_at(keys, 0)), mechanism, keys, text, out),
        }
    }

    fn open(&self, suite: Suite, keys: &[u8; 40], string: &mut [u8]) -> Option<Opened> {
        let mechanism = suite.mechanism;
        match suite.cipher {
            Cipher::TwoKey => open_by(&two_key(keys), mechanism, keys, string),
            Cipher::ThreeKey => open_by(&three_key(keys), mechanism, keys, string),
            Cipher::Aes => open_by(&Aes128::new(key_at(keys, 0)), mechanism, keys, string),
        }
    }
}
