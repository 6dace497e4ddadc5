// Ciphers in cipher block chaining, in place, for C.
ghost use Rattle.std.specs.Prelude.{◌≡◌, ◌%◌, cond, length};
ghost use Rattle.aes.specs.Cipher.{aes_encrypt, aes_decrypt};
ghost use Rattle.cipher.specs.Cbc.{cbc, uncbc};
ghost use Rattle.exports.specs.Calls.{answer, fitting, triple_encrypt, triple_decrypt};

use crate::answers::{answering, is_fitting};
use crate::keys::{aes_of, triple_of};
use cipher::{cbc_decrypt, cbc_encrypt};

// The four calls differ in cipher and direction, and C has a name for each; what they share stands in `answers`.

// Encrypts the buffer under AES-128.
#[unsafe(no_mangle)]
pub extern "C" fn card_aes_cbc_encrypt(key: &[u8], buf: &mut [u8]) -> u32
    ensures answer { result ≡ answer (fitting 16 16 key.now buf.old) }
    ensures after { buf.new ≡ cond (fitting 16 16 key.now buf.old) (cbc 16 (aes_encrypt key.now) buf.old) buf.old }
{
    let fits = is_fitting(16, 16, key, buf);
    answering(fits, buf, |buf| cbc_encrypt(&aes_of(key), buf, 0))
}

// Decrypts the buffer under AES-128.
#[unsafe(no_mangle)]
pub extern "C" fn card_aes_cbc_decrypt(key: &[u8], buf: &mut [u8]) -> u32
    ensures answer { result ≡ answer (fitting 16 16 key.now buf.old) }
    ensures after { buf.new ≡ cond (fitting 16 16 key.now buf.old) (uncbc 16 (aes_decrypt key.now) buf.old) buf.old }
{
    let fits = is_fitting(16, 16, key, buf);
    answering(fits, buf, |buf| cbc_decrypt(&aes_of(key), buf, 0))
}

// Encrypts whole blocks under triple DES with a key of 24 bytes; in the closure itself the proof leaves open whose key it is.
fn triple_forth(key: &[u8; 24], buf: &mut [u8])
    requires { length buf.old % 8 ≡ 0 }
    ensures { buf.new ≡ cbc 8 (triple_encrypt key.now) buf.old }
{
    cbc_encrypt(&triple_of(key), buf, 0);
}

// Decrypts whole blocks under triple DES with a key of 24 bytes.
fn triple_back(key: &[u8; 24], buf: &mut [u8])
    requires { length buf.old % 8 ≡ 0 }
    ensures { buf.new ≡ uncbc 8 (triple_decrypt key.now) buf.old }
{
    cbc_decrypt(&triple_of(key), buf, 0);
}

// Encrypts the buffer under triple DES with three keys.
#[unsafe(no_mangle)]
pub extern "C" fn card_triple_cbc_encrypt(key: &[u8], buf: &mut [u8]) -> u32
    ensures answer { result ≡ answer (fitting 24 8 key.now buf.old) }
    ensures after { buf.new ≡ cond (fitting 24 8 key.now buf.old) (cbc 8 (triple_encrypt key.now) buf.old) buf.old }
{
    let fits = is_fitting(24, 8, key, buf);
    answering(fits, buf, |buf| triple_forth(key.as_array().unwrap(), buf))
}

// Decrypts the buffer under triple DES with three keys.
#[unsafe(no_mangle)]
pub extern "C" fn card_triple_cbc_decrypt(key: &[u8], buf: &mut [u8]) -> u32
    ensures answer { result ≡ answer (fitting 24 8 key.now buf.old) }
    ensures after { buf.new ≡ cond (fitting 24 8 key.now buf.old) (uncbc 8 (triple_decrypt key.now) buf.old) buf.old }
{
    let fits = is_fitting(24, 8, key, buf);
    answering(fits, buf, |buf| triple_back(key.as_array().unwrap(), buf))
}
