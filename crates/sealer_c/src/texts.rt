// Opening texts, once it is known what is asked for.
ghost use Rattle.std.specs.Prelude.{◌≡◌, ◌+◌, ◌≤◌, ◌++◌, length, drop};
ghost use Rattle.sealing.specs.Lent.{as_text};
ghost use Rattle.sealer.specs.Sealers.{real};
ghost use Rattle.sealer_c.specs.Calls.{opened_as, plain, Writes};

use crate::refusal::Refusal;
use byte_lists::put;
use sealer::RealSealer;
use sealing::{Sealer, Suite, Text};

// Writes direction, number and body at the start of `out`, and answers how many bytes these are.
fn put_plain(text: Text<'_>, out: &mut [u8]) -> usize
    requires { 288 ≤ length out.old }
    ensures len { result ≡ 9 + length text.entry.body.now }
    ensures bytes { out.new ≡ plain (as_text text.entry) ++ drop (length (plain (as_text text.entry))) out.old }
{
    put(out, 0, &[u8::from(text.direction)]);
    put(out, 1, &text.number.to_be_bytes());
    put(out, 9, text.body);
    9 + text.body.len()
}

// Opens a string in a copy of its own: writes the text at the start of `out`, and answers its length.
pub fn open_text(
    suite: Suite,
    keys: &[u8; 40],
    string: &[u8],
    out: &mut [u8],
) -> Result<usize, Refusal>
    requires { 288 ≤ length out.old }
    ensures { Writes (opened_as (real.opened suite keys.now string.now)) out.old out.new result }
{
    let mut work = [0u8; 288];
    let copy = work.get_mut(..string.len()).ok_or(Refusal::Shut)?;
    copy.copy_from_slice(string);
    let opened = RealSealer.open(suite, keys, copy).ok_or(Refusal::Shut)?;
    let text = Text {
        direction: opened.direction,
        number: opened.number,
        body: opened.body(copy).unwrap(),
    };
    Ok(put_plain(text, out))
}
