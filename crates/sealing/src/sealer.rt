// The trait of everything that seals.
ghost use Rattle.std.specs.Prelude.{◌≡◌, ◌≤◌, length};
ghost use Rattle.std.specs.Option.{option_map};
ghost use Rattle.sealing.specs.Sealing.{Sealing, Faithful, Apart};
ghost use Rattle.sealing.specs.Lent.{Seals, Opens, as_text, body_in};

use crate::suite::{Direction, Suite};
use crate::text::Text;

// What opening gives: the text's head, and where in the string its body now stands.
#[derive(Clone, Copy)]
pub struct Opened {
    pub direction: Direction,
    pub number: u64,
    // Not the body itself, lent out of the string: what the string ends as is then no `string.new`, but a clause over names.
    pub at: usize,
    pub len: usize,
}

impl Opened {
    // The body, out of the string that was opened; none where its places do not lie in the string.
    pub fn body(self, string: &[u8]) -> Option<&[u8]>
        ensures { option_map (λ b. b.now) result ≡ body_in self string.now }
    {
        string.get(self.at..)?.get(..self.len)
    }
}

// Seals texts, and opens what is a text's sealing. Suite and keys are no one type: callers hold them as two fields of a
// connection, as the law does, and would make one for each call.
pub trait Sealer {
    // What sealing and opening mean.
    ghost seals: { Sealing };

    // Writes the sealed string at the start of `out`, leaves the rest of it, and answers the string's length. The memory is the
    // caller's, since a card has no heap. It is no type of its own with the room: each caller has an array, and would wrap it.
    // Here and below this trait.
    fn seal(&self, suite: Suite, keys: &[u8; 40], text: Text<'_>, out: &mut [u8]) -> usize
        requires { 288 ≤ length out.old }
        ensures { Seals (seals.sealed suite keys.now (as_text text.entry)) out.old out.new result };

    // Opens the string in place; where it does not open, it is as it was.
    fn open(&self, suite: Suite, keys: &[u8; 40], string: &mut [u8]) -> Option<Opened>
        ensures { Opens seals suite keys.now string.old string.new result };

    ghost faithful: { Faithful seals };
}

// Two texts never share a sealed string under one suite and key.
pub fn texts_stay_apart<S: Sealer>()
    ensures { Apart S.seals }
{}
