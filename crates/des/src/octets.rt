// Blocks and keys of eight bytes as words, the highest byte first. The library's conversions, with what they say of eight places
// said as `number` and `octets`: where a block or a key is converted in place, the check does not find that.
ghost use Rattle.std.specs.Prelude.{◌≡◌};
ghost use Rattle.byte_lists.specs.Numbers.{octets, number};

// The word that eight bytes make.
pub fn read(bytes: &[u8; 8]) -> u64
    ensures { result ≡ number bytes.now }
{
    u64::from_be_bytes(*bytes)
}

// The eight bytes of a word.
#[tactic(auto, using(byte_lists::proofs::Digits::octets_eight))]
pub fn written(word: u64) -> [u8; 8]
    ensures { result ≡ octets 8 word }
{
    word.to_be_bytes()
}
