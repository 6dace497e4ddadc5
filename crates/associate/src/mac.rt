// Judging the codes that a terminal sends.
ghost use Rattle.std.specs.Prelude.{◌≡◌, [], ◌∷◌, ◌++◌, take};
ghost use Rattle.law.specs.Associations.{mac_of};
ghost use Rattle.law.specs.Hashes.{keyed};
ghost use Rattle.associate.specs.Checks.{passes};

use hmac::{mac, mac_joined};
use secret::same;

// The two below are a line each: one for both would leave the joining of the parts to the proofs of its callers.

// Passes the code of a start: over the identifier and the container's size.
pub fn start_mac(
    key: &[u8],
    id: &[u8],
    container: u8,
    given: &[u8],
    area: &mut [u8; 64],
) -> Option<()>
    ensures { result ≡ passes (mac_of keyed key.now (id.now ++ container ∷ [])) given.now }
{
    is_code(&mac_joined(key, &[id, &[container]]), given, area)
}

// Passes the code of a termination: over the identifier.
pub fn end_mac(key: &[u8], id: &[u8], given: &[u8], area: &mut [u8; 64]) -> Option<()>
    ensures { result ≡ passes (mac_of keyed key.now id.now) given.now }
{
    is_code(&mac(key, id), given, area)
}

// Passes what was given where it is the code's first 16 bytes. All of them are looked at.
fn is_code(code: &[u8; 32], given: &[u8], area: &mut [u8; 64]) -> Option<()>
    ensures { result ≡ passes (take 16 code.now) given.now }
{
    area[..16].copy_from_slice(&code[..16]);
    equal(&area[..16], given)
}

// Passes equal bytes.
fn equal(code: &[u8], given: &[u8]) -> Option<()>
    ensures { result ≡ passes code.now given.now }
{
    same(code, given).then_some(())
}
