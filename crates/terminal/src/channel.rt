// Commands under seal, and their answers.
ghost use Rattle.std.specs.Prelude.{◌≡◌, ◌+◌, ◌%◌, ◌^◌, ◌≤◌, ◌&&◌, length, IfSome, IfOk, if◌then◌else◌, Some, None, vec_items, ◌==◌};
ghost use Rattle.std.specs.Option.{option_map};
ghost use Rattle.sealing.specs.Sealing.{text};
ghost use Rattle.sealing.specs.declared.suite.Direction.TheVariants.{Command};
ghost use Rattle.terminal.specs.Answer.{is_reply, answer_in};

use crate::connection::Connection;
use sealing::{Direction, Opened, Sealer, Text};
use std::alloc::{AllocError, Global};

// The most bytes that a sealed string has.
const LONGEST: usize = 288;

// An opened text, where it is the answer to the command of this number.
fn answering(opened: Opened, number: u64) -> Option<Opened>
    ensures { result ≡ (if is_reply opened.direction && opened.number == number then Some opened else None) }
{
    (opened.direction == Direction::Reply && opened.number == number).then_some(opened)
}

impl Connection {
    // The next command under seal.
    pub fn seal<S: Sealer>(
        &self,
        heap: Global,
        sealer: &S,
        body: &[u8],
    ) -> Result<Vec<u8>, AllocError>
        requires least { 2 ≤ length body.now }
        requires most { length body.now ≤ 261 }
        ensures { IfOk result (λ v. v.items ≡ S.Sealer.seals.sealed self.now.suite self.now.secrets.keys (text Command self.now.count body.now)) }
    {
        let text = Text {
            direction: Direction::Command,
            number: self.count,
            body,
        };
        // A sealer writes into lent room and gives the length, since the card has no heap.
        let mut out = [0; LONGEST];
        let len = sealer.seal(self.suite, &self.secrets.keys, text, &mut out);
        Vec::from_slice(heap, &out[..len])
    }

    // Opens in place what may be the answer to the command of this number, and gives its body.
    fn opened<'a, S: Sealer>(
        &self,
        sealer: &S,
        number: u64,
        string: &'a mut [u8],
    ) -> Option<&'a [u8]>
        ensures { option_map (λ b. b.now) result ≡ answer_in number (S.Sealer.seals.opened self.now.suite self.now.secrets.keys string.old) }
    {
        let opened = sealer.open(self.suite, &self.secrets.keys, string)?;
        answering(opened, number)?.body(string)
    }

    // What the application replied to the command of this number, where the string is the sealing of its answer. The string
    // is opened in place.
    pub fn open<S: Sealer>(
        &self,
        heap: Global,
        sealer: &S,
        number: u64,
        string: &mut [u8],
    ) -> Result<Option<Vec<u8>>, AllocError>
        ensures { IfOk result (λ o. option_map vec_items o ≡ answer_in number (S.Sealer.seals.opened self.now.suite self.now.secrets.keys string.old)) }
    {
        self.opened(sealer, number, string)
            .map(|body| Vec::from_slice(heap, body))
            .transpose()
    }

    // The card has accepted the command: the next one has the next number.
    pub fn accepted(&mut self)
        ensures { self.new.count ≡ (self.old.count + 1) % 2 ^ 64 }
    {
        self.count = self.count.wrapping_add(1);
    }
}
