// Digests and codes of a message, for C.
ghost use Rattle.std.specs.Prelude.{◌≡◌, cond, eqb, length};
ghost use Rattle.hmac.specs.Hmac.{hmac};
ghost use Rattle.sha256.specs.Digest.{digest};
ghost use Rattle.exports.specs.Calls.{answer};

use crate::answers::answering;
use hmac::mac;
use sha256::digest_of;

// The calls here and that of the CRC differ in what they write, and C has a name for each; what they share is `answering`.

// Writes the SHA-256 digest of a message: 32 bytes.
#[unsafe(no_mangle)]
pub extern "C" fn card_sha256(message: &[u8], out: &mut [u8]) -> u32
    ensures answer { result ≡ answer (eqb (length out.old) 32) }
    ensures after { out.new ≡ cond (eqb (length out.old) 32) (digest message.now) out.old }
{
    let fits = out.len() == 32;
    answering(fits, out, |out| out.copy_from_slice(&digest_of(message)))
}

// Writes the HMAC-SHA-256 code of a message under a key of any length: 32 bytes.
#[unsafe(no_mangle)]
pub extern "C" fn card_hmac(key: &[u8], message: &[u8], out: &mut [u8]) -> u32
    ensures answer { result ≡ answer (eqb (length out.old) 32) }
    ensures after { out.new ≡ cond (eqb (length out.old) 32) (hmac key.now message.now) out.old }
{
    let fits = out.len() == 32;
    answering(fits, out, |out| out.copy_from_slice(&mac(key, message)))
}
