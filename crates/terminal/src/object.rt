// Objects, one behind the other, and the object that holds them all.
ghost use Rattle.std.specs.Prelude.{◌≡◌, ◌+◌, ◌<◌, ◌++◌, length, IfOk, vec_len};
ghost use Rattle.replies.specs.Reply.{tagged};

use objects::tag::OBJECT;
use std::alloc::{AllocError, Global};

// The bytes with a part behind them.
pub fn with_bytes(mut bytes: Vec<u8>, part: &[u8]) -> Result<Vec<u8>, AllocError>
    ensures bytes { IfOk result (λ v. v.items ≡ bytes.items ++ part.now) }
    ensures size { IfOk result (λ v. vec_len v ≡ vec_len bytes + length part.now) }
{
    bytes.extend_from_slice(part)?;
    Ok(bytes)
}

// The bytes with one more object behind them, on the heap: the card writes its own into fixed memory. The bound stays a
// clause: nearly every value is an array, whose length is known.
pub fn with_object(bytes: Vec<u8>, tag: u8, value: &[u8]) -> Result<Vec<u8>, AllocError>
    requires { length value.now < 256 }
    ensures bytes { IfOk result (λ v. v.items ≡ bytes.items ++ tagged tag value.now) }
    ensures size { IfOk result (λ v. vec_len v ≡ vec_len bytes + (2 + length value.now)) }
{
    with_bytes(with_bytes(bytes, &[tag, value.len() as u8])?, value)
}

// The object that holds these.
pub fn wrapped(heap: Global, inside: &[u8]) -> Result<Vec<u8>, AllocError>
    requires { length inside.now < 128 }
    ensures { IfOk result (λ v. v.items ≡ tagged 0x73 inside.now) }
{
    with_object(Vec::new(heap), OBJECT, inside)
}
