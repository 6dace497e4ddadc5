// The checks of a message, for C.
ghost use Rattle.std.specs.Prelude.{◌≡◌, cond, eqb, length};
ghost use Rattle.aes.specs.Cipher.{aes_encrypt};
ghost use Rattle.cmac.specs.Cmac.{cmac};
ghost use Rattle.crc.specs.Crc.{crc};
ghost use Rattle.exports.specs.Calls.{answer, room};

use crate::answers::{answering, is_room};
use crate::keys::aes_of;
use cmac::Cmac;
use crc::Crc32;
use integrity::Integrity;

// Writes the CMAC of a message under AES with a key of 16 bytes: 16 bytes.
#[unsafe(no_mangle)]
pub extern "C" fn card_cmac(key: &[u8], message: &[u8], out: &mut [u8]) -> u32
    ensures answer { result ≡ answer (room 16 16 key.now out.old) }
    ensures after { out.new ≡ cond (room 16 16 key.now out.old) (cmac (aes_encrypt key.now) message.now) out.old }
{
    let fits = is_room(16, 16, key, out);
    answering(
        fits,
        out,
        |out| Cmac::new(aes_of(key)).write_check(message, out),
    )
}

// Writes the CRC-32 of a message: 4 bytes, the highest first.
#[unsafe(no_mangle)]
pub extern "C" fn card_crc32(message: &[u8], out: &mut [u8]) -> u32
    ensures answer { result ≡ answer (eqb (length out.old) 4) }
    ensures after { out.new ≡ cond (eqb (length out.old) 4) (crc message.now) out.old }
{
    let fits = out.len() == 4;
    answering(fits, out, |out| Crc32.write_check(message, out))
}
