// Ciphers made of the key bytes.
ghost use Rattle.std.specs.Prelude.{◌≡◌, ◌+◌, ◌≤◌};
ghost use Rattle.cipher.specs.Triple.{in_turn};
ghost use Rattle.des.specs.Des.{encrypts, decrypts};
ghost use Rattle.sealing.specs.declared.suite.Cipher.TheVariants.{TwoKey, ThreeKey};
ghost use Rattle.sealer.specs.KeyBytes.{enciphers, deciphers, key_at};

use cipher::Triple;
use des::Des;

// The key of N bytes that stands among the key bytes from the place `at`.
pub fn key_at<const N: usize>(keys: &[u8; 40], at: usize) -> &[u8; N]
    requires { at + N ≤ 40 }
    ensures { result.now ≡ key_at at N keys.now }
{
    keys[at..at + N].as_array().unwrap()
}

// Triple DES whose third key is its first.
pub fn two_key(keys: &[u8; 40]) -> Triple<Des>
    ensures encrypts { in_turn (encrypts result.first.keys) (decrypts result.second.keys) (encrypts result.third.keys) ≡ enciphers TwoKey keys.now }
    ensures decrypts { in_turn (decrypts result.third.keys) (encrypts result.second.keys) (decrypts result.first.keys) ≡ deciphers TwoKey keys.now }
{
    let first = Des::new(key_at(keys, 0));
    let second = Des::new(key_at(keys, 8));
    Triple::new(first, second, first)
}

// Triple DES with three keys. Not one function with `two_key`, by the third key's place: that one makes its first key once.
pub fn three_key(keys: &[u8; 40]) -> Triple<Des>
    ensures encrypts { in_turn (encrypts result.first.keys) (decrypts result.second.keys) (encrypts result.third.keys) ≡ enciphers ThreeKey keys.now }
    ensures decrypts { in_turn (decrypts result.third.keys) (encrypts result.second.keys) (decrypts result.first.keys) ≡ deciphers ThreeKey keys.now }
{
    Triple::new(
        Des::new(key_at(keys, 0)),
        Des::new(key_at(keys, 8)),
        Des::new(key_at(keys, 16)),
    )
}
