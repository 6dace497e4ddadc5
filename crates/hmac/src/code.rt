// A code in progress, and whole codes.
ghost use Rattle.std.specs.Prelude.{◌≡◌, ℕ, List, [], ◌++◌, replicate};
ghost use Rattle.std.specs.List.{flat_map};
ghost use Rattle.byte_lists.specs.Bytes.{xors};
ghost use Rattle.sha256.specs.Took.{Took};
ghost use Rattle.hmac.specs.Hmac.{hmac};
ghost use Rattle.hmac.specs.Keyed.{Keyed};

use crate::keys::{block_key_of, masked};
use sha256::Sha256;

// The bytes that a key is joined with, for the inner and for the outer digest.
const IPAD: u8 = 0x36;

const OPAD: u8 = 0x5c;

// The two digests of a code, each begun with the key.
#[derive(Clone, Copy)]
pub struct Hmac {
    inner: Sha256,
    outer: Sha256,
}

// A digest that has taken a key joined with this byte.
fn begun(byte: u8, key: &[u8; 64]) -> Sha256
    ensures { Took result (xors (replicate 64 byte) key.now) }
{
    let mut digest = Sha256::new();
    digest.update(&masked(byte, key));
    digest
}

impl Hmac {
    // The code under a key of any length, with nothing taken yet.
    pub fn new(key: &[u8]) -> Hmac
        ensures { Keyed result key.now [] }
    {
        let block = block_key_of(key);
        Hmac {
            inner: begun(IPAD, &block),
            outer: begun(OPAD, &block),
        }
    }

    // Takes the bytes of a part behind those taken before.
    pub fn update(&mut self, part: &[u8])
        ensures { (key message : List ℕ) → Keyed self.old key message → Keyed self.new key (message ++ part.now) }
    {
        self.inner.update(part);
    }

    // Takes the bytes of parts, one behind the other.
    pub fn update_all(&mut self, parts: &[&[u8]])
        ensures { (key message : List ℕ) → Keyed self.old key message → Keyed self.new key (message ++ flat_map (λ part. part.now) parts.now) }
    {
        for part in parts {
            self.update(part);
        }
    }

    // The code of the message taken.
    pub fn finish(self) -> [u8; 32]
        ensures { (key message : List ℕ) → Keyed self key message → result ≡ hmac key message }
    {
        let mut outer = self.outer;
        outer.update(&self.inner.finish());
        outer.finish()
    }
}

// The code of a message.
pub fn mac(key: &[u8], message: &[u8]) -> [u8; 32]
    ensures { result ≡ hmac key.now message.now }
{
    mac_joined(key, &[message])
}

// The code of parts, one behind the other.
pub fn mac_joined(key: &[u8], parts: &[&[u8]]) -> [u8; 32]
    ensures { result ≡ hmac key.now (flat_map (λ part. part.now) parts.now) }
{
    let mut code = Hmac::new(key);
    code.update_all(parts);
    code.finish()
}
