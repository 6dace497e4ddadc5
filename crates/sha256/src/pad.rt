// What stands behind a message.
ghost use Rattle.std.specs.Prelude.{◌≡◌, ◌+◌, ◌*◌, ◌%◌, ◌^◌, ◌<◌, ◌∷◌, replicate};
ghost use Rattle.byte_lists.specs.Numbers.{octets};
ghost use Rattle.sha256.specs.Digest.{zeros};

// How many zeros stand between the byte 80 and the length: the fewest that leave room for 8 bytes in the last block.
pub fn gap(count: u64) -> usize
    ensures is { result ≡ zeros count }
    ensures fewest { ((count + 1 + result) % 64 ≡ 56) × (result < 64) }
{
    ((119 - count % 64) % 64) as usize
}

// The lowest 64 bits of the number of bits in so many bytes.
fn bit_count(count: u64) -> u64
    ensures { result ≡ (8 * count) % 2 ^ 64 }
{
    count.wrapping_mul(8)
}

// The number of bits in so many bytes, as 8 bytes.
#[tactic(auto, using(byte_lists::proofs::Digits::octets_eight))]
pub fn bits(count: u64) -> [u8; 8]
    ensures { result ≡ octets 8 (8 * count) }
{
    bit_count(count).to_be_bytes()
}

// The byte 80, and as many zeros as may stand behind it.
pub fn stop() -> [u8; 64]
    ensures { result ≡ 0x80 ∷ replicate 63 0 }
{
    let mut bytes = [0; 64];
    bytes[0] = 0x80;
    bytes
}
