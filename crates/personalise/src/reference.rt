// The name by which a key is asked for.
ghost use Rattle.std.specs.Prelude.{◌≡◌, ◌≤◌, length, Decides};
ghost use Rattle.std.specs.Option.{option_map};
ghost use Rattle.buffer.specs.Held.{held};
ghost use Rattle.numerals.specs.Hexadecimal.{sized, unhex};

use buffer::Store;
use numerals::read_hexadecimal;

// The fewest and the most bytes of a reference.
const SHORTEST: usize = 22;

const LONGEST: usize = 68;

// A reference of 22 to 68 bytes.
#[derive(Clone, Copy)]
pub struct Reference {
    bytes: Store<LONGEST>,
    ghost allowed: { (22 ≤ length (held bytes)) × (length (held bytes) ≤ 68) },
}

impl Reference {
    // The reference that pairs of digits write, where it has an allowed length.
    pub fn read(digits: &[u8]) -> Option<Reference>
        ensures { option_map (λ k. held k.bytes) result ≡ sized 22 68 (unhex digits.now) }
    {
        let len = digits.len() / 2;
        if !is_allowed(len) {
            return None;
        }
        let mut bytes = [0; LONGEST];
        let bytes = &mut bytes[..len];
        read_hexadecimal(digits, bytes)?;
        Some(Reference {
            bytes: Store::from_slice(bytes),
        })
    }

    // The bytes.
    pub fn as_slice(&self) -> &[u8]
        ensures value { result.now ≡ held self.now.bytes }
        ensures allowed { (22 ≤ length result.now) × (length result.now ≤ 68) }
    {
        self.bytes.as_slice()
    }
}

// Whether a reference may have so many bytes.
fn is_allowed(len: usize) -> bool
    ensures { Decides result ((22 ≤ len) × (len ≤ 68)) }
{
    (SHORTEST..=LONGEST).contains(&len)
}
