// The commands that establish, start and end.
ghost use Rattle.std.specs.Prelude.{◌≡◌, ◌≤◌, ◌∷◌, length, IfOk};
ghost use Rattle.apdu.specs.Command.{le, alone};
ghost use Rattle.apdu.specs.Writing.{command_bytes};
ghost use Rattle.terminal.specs.Commands.{manage};

use crate::object::with_bytes;
use apdu::Kind;
use std::alloc::{AllocError, Global};

const MANAGE: u8 = 0x73;

// A command with data alone. The bound stays a clause, here and below: a caller tests a block's length once, and would make a
// type for it at that place alone.
pub fn with_data(heap: Global, ins: u8, p1: u8, p2: u8, data: &[u8]) -> Result<Vec<u8>, AllocError>
    requires { length «data».now ≤ 255 }
    ensures { IfOk result (λ v. v.items ≡ 0 ∷ ins ∷ p1 ∷ p2 ∷ length «data».now ∷ «data».now) }
{
    let header = Vec::from_slice(heap, &[0x00, ins, p1, p2, data.len() as u8])?;
    with_bytes(header, data)
}

// The first block of an object. It and a next block are one call each, and differ in P2.
pub fn first_block(heap: Global, kind: Kind, block: &[u8]) -> Result<Vec<u8>, AllocError>
    requires { length block.now ≤ 255 }
    ensures { IfOk result (λ v. v.items ≡ command_bytes (manage kind 0x80 (alone block.now))) }
{
    with_data(heap, MANAGE, u8::from(kind), 0x80, block)
}

// A next block of an object.
pub fn next_block(heap: Global, kind: Kind, block: &[u8]) -> Result<Vec<u8>, AllocError>
    requires { length block.now ≤ 255 }
    ensures { IfOk result (λ v. v.items ≡ command_bytes (manage kind 0x00 (alone block.now))) }
{
    with_data(heap, MANAGE, u8::from(kind), 0x00, block)
}

// Asks for the reply, from its first byte on and up to 256 bytes of it.
pub fn reply_wanted(kind: Kind) -> [u8; 5]
    ensures { result ≡ command_bytes (manage kind 0xA0 (le 256)) }
{
    [0x00, MANAGE, u8::from(kind), 0xA0, 0x00]
}
