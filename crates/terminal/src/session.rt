// A started session: a sealed string goes out in blocks, and its answer comes back in blocks.
ghost use Rattle.std.specs.Prelude.{◌≡◌, ◌+◌, ◌%◌, ◌≤◌, length, IfSome, IfOk, vec_items};
ghost use Rattle.std.specs.Option.{option_map};
ghost use Rattle.apdu.specs.Command.{bare, le, alone};
ghost use Rattle.apdu.specs.Writing.{command_bytes};
ghost use Rattle.terminal.specs.Commands.{transact};
ghost use Rattle.terminal.specs.Cut.{behind, following, block_command};

use crate::command::with_data;
use replies::block::{answer_block, block_count};
use std::alloc::{AllocError, Global};

const TRANSACT: u8 = 0x75;

// The byte that the card gave it, and the size of its containers.
#[derive(Clone, Copy)]
pub struct Session {
    pub byte: u8,
    pub container: u8,
}

// How many of `count` blocks follow after `sent` of them.
fn left(count: usize, sent: usize) -> Option<u8>
    ensures { result ≡ behind count sent }
{
    u8::try_from(count.checked_sub(sent)?).ok()
}

impl Session {
    // How many blocks follow the block of this number.
    fn following(self, string: &[u8], number: u8) -> Option<u8>
        ensures { result ≡ following self.container string.now number }
    {
        if self.container == 0 {
            return None;
        }
        left(block_count(string, self.container), usize::from(number) + 1)
    }

    // The block of this number, counted from 0, of a sealed string, and how many follow it.
    fn part(self, string: &[u8], number: u8) -> Option<(u8, &[u8])>
        ensures command { option_map (λ p. command_bytes (transact self.byte p.0 (alone p.1.now))) result ≡ block_command self.byte self.container string.now number }
        ensures short { IfSome result (λ p. length p.1.now ≤ 255) }
    {
        let p2 = self.following(string, number)?;
        let block = answer_block(string, self.container, number)?;
        Some((p2, block.bytes))
    }

    // The command that carries the block of this number.
    pub fn block(
        self,
        heap: Global,
        string: &[u8],
        number: u8,
    ) -> Result<Option<Vec<u8>>, AllocError>
        ensures { IfOk result (λ o. option_map vec_items o ≡ block_command self.byte self.container string.now number) }
    {
        self.part(string, number)
            .map(|(p2, block)| with_data(heap, TRANSACT, self.byte, p2, block))
            .transpose()
    }

    // The command that fetches the answer's block of this number, counted from 0.
    pub fn fetch(self, number: u8) -> [u8; 5]
        ensures { result ≡ command_bytes (transact ((self.byte + 1) % 256) number (le 256)) }
    {
        [0x00, TRANSACT, self.byte.wrapping_add(1), number, 0x00]
    }

    // The command that discards the answer.
    pub fn discard(self) -> [u8; 4]
        ensures { result ≡ command_bytes (transact ((self.byte + 2) % 256) 0 bare) }
    {
        [0x00, TRANSACT, self.byte.wrapping_add(2), 0x00]
    }
}
