// The sealer for the bench: a frame that anyone can read.
ghost use Rattle.sealer.specs.Sealers.{bench};
ghost use Rattle.sealer.specs.Lawful.{bench_faithful};

use crc::Crc32;
use frame::{read_frame, write_frame};
use sealing::{Opened, Sealer, Suite, Text};

// Checks with CRC32 and enciphers nothing, whatever the suite and the keys.
#[derive(Clone, Copy)]
pub struct BenchSealer;

impl Sealer for BenchSealer {
    ghost seals = { bench };

    ghost faithful = { bench_faithful };

    fn seal(&self, _suite: Suite, _keys: &[u8; 40], text: Text<'_>, out: &mut [u8]) -> usize {
        write_frame(&Crc32, 8, text.direction, text.number, text.body, out)
    }

    fn open(&self, _suite: Suite, _keys: &[u8; 40], string: &mut [u8]) -> Option<Opened> {
        read_frame(&Crc32, 8, string)
    }
}
