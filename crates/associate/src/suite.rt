// The suite that a terminal and the card have in common.
ghost use Rattle.std.specs.Prelude.{◌≡◌, ◌<◌};
ghost use Rattle.law.specs.Associations.{bit, common, common_cipher, common_mechanism};

use sealing::{Cipher, Mechanism, Suite};

// Whether the bit of this weight is set.
pub fn has_bit(bits: u8, weight: u8) -> bool
    requires { 0 < weight }
    ensures { result ≡ bit weight bits }
{
    bits / weight % 2 == 1
}

// The suite of a terminal's ciphers and mechanisms, where there is one of each in common.
pub fn common(ciphers: u8, mechanisms: u8) -> Option<Suite>
    ensures { result ≡ common ciphers mechanisms }
{
    Some(Suite {
        cipher: common_cipher(ciphers)?,
        mechanism: common_mechanism(mechanisms)?,
    })
}

// The cipher of the highest bit in common.
fn common_cipher(bits: u8) -> Option<Cipher>
    ensures { result ≡ common_cipher bits }
{
    has_bit(bits, 4)
        .then_some(Cipher::Aes)
        .or(has_bit(bits, 2).then_some(Cipher::ThreeKey))
        .or(has_bit(bits, 1).then_some(Cipher::TwoKey))
}

// The mechanism of the highest bit in common.
fn common_mechanism(bits: u8) -> Option<Mechanism>
    ensures { result ≡ common_mechanism bits }
{
    has_bit(bits, 4)
        .then_some(Mechanism::Cmac)
        .or(has_bit(bits, 1).then_some(Mechanism::Crc32))
}
