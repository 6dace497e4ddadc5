// Words as bytes.
ghost use Rattle.std.specs.Prelude.{◌≡◌};
ghost use Rattle.byte_lists.specs.Numbers.{octets};
ghost use Rattle.sha256.specs.Digest.{written};

use compression::Eight;

// A word as four bytes, the highest first. A function of this crate, as AES has its own: `map` learns nothing of what a closure
// gives here, nor another crate's function.
#[tactic(auto, using(byte_lists::proofs::Digits::octets_four))]
fn four_of(word: u32) -> [u8; 4]
    ensures { result ≡ octets 4 word }
{
    word.to_be_bytes()
}

// Eight words as 32 bytes.
pub fn bytes_of(v: Eight) -> [u8; 32]
    ensures { result ≡ written v }
{
    let words: [u32; 8] = v.into();
    *words.map(four_of).as_flattened().as_array().unwrap()
}
