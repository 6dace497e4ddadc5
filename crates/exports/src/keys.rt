// Ciphers made of the key bytes.
ghost use Rattle.std.specs.Prelude.{◌≡◌, ◌+◌, ◌≤◌, length};
ghost use Rattle.aes.specs.Cipher.{encrypted, decrypted, aes_encrypt, aes_decrypt};
ghost use Rattle.aes.specs.Words.{bytes_of};
ghost use Rattle.cipher.specs.Triple.{in_turn};
ghost use Rattle.des.specs.Des.{encrypts, decrypts, des_encrypt, des_decrypt};
ghost use Rattle.exports.specs.Calls.{part, triple_encrypt, triple_decrypt};

use aes::Aes128;
use cipher::Triple;
use des::Des;

// AES under sixteen key bytes. They come as a slice: a closure that makes both the array and the cipher leaves
// open, in the proofs of the two calls, whose key it is.
pub fn aes_of(key: &[u8]) -> Aes128
    requires { length key.now ≡ 16 }
    ensures encrypts { encrypted (bytes_of result.keys) ≡ aes_encrypt key.now }
    ensures decrypts { decrypted (bytes_of result.keys) ≡ aes_decrypt key.now }
{
    Aes128::new(key.as_array().unwrap())
}

// DES under the eight key bytes from the place `at`.
fn des_at(key: &[u8; 24], at: usize) -> Des
    requires { at + 8 ≤ 24 }
    ensures encrypts { encrypts result.keys ≡ des_encrypt (part at key.now) }
    ensures decrypts { decrypts result.keys ≡ des_decrypt (part at key.now) }
{
    Des::new(key[at..at + 8].as_array().unwrap())
}

// Triple DES under twenty-four key bytes. The sealer makes one of its own forty: each says it in the words of its interface, and
// one function for both would state an equation of its own, to be turned into either.
pub fn triple_of(key: &[u8; 24]) -> Triple<Des>
    ensures encrypts { in_turn (encrypts result.first.keys) (decrypts result.second.keys) (encrypts result.third.keys) ≡ triple_encrypt key.now }
    ensures decrypts { in_turn (decrypts result.third.keys) (encrypts result.second.keys) (decrypts result.first.keys) ≡ triple_decrypt key.now }
{
    Triple::new(des_at(key, 0), des_at(key, 8), des_at(key, 16))
}
