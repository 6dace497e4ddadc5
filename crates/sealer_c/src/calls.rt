// The calls for C.
ghost use Rattle.std.specs.Prelude.{◌≡◌, length};
ghost use Rattle.sealer_c.specs.Calls.{sealing, opening, answer, left, number_of, Told, Writes};

use crate::asked::{is_body, is_roomy, keys_of};
use crate::refusal::Refusal;
use crate::texts::open_text;
use sealer::RealSealer;
use sealing::{Direction, Sealer, Suite, Text};

// How many bytes were written, or the refusal's number.
fn number_of(written: Result<usize, Refusal>) -> usize
    ensures { result ≡ number_of written }
{
    written.unwrap_or_else(usize::from)
}

// Seals a text, where what is asked for is known and fits. Suite and keys are read as in `opened`: one function for the two
// lines would answer a pair of them, and be longer.
fn sealed(
    cipher: u8,
    mechanism: u8,
    keys: &[u8],
    direction: u8,
    number: u64,
    body: &[u8],
    out: &mut [u8],
) -> Result<usize, Refusal>
    ensures { Writes (sealing cipher mechanism keys.now direction number body.now (length out.old)) out.old out.new result }
{
    let suite = Suite::try_from([cipher, mechanism])?;
    let keys = keys_of(keys).ok_or(Refusal::Unfit)?;
    let direction = Direction::try_from(direction)?;
    if !is_body(body) || !is_roomy(out) {
        return Err(Refusal::Unfit);
    }
    let text = Text {
        direction,
        number,
        body,
    };
    Ok(RealSealer.seal(suite, keys, text, out))
}

// Opens a string, where what is asked for is known and fits.
fn opened(
    cipher: u8,
    mechanism: u8,
    keys: &[u8],
    string: &[u8],
    out: &mut [u8],
) -> Result<usize, Refusal>
    ensures { Writes (opening cipher mechanism keys.now string.now (length out.old)) out.old out.new result }
{
    let suite = Suite::try_from([cipher, mechanism])?;
    let keys = keys_of(keys).ok_or(Refusal::Unfit)?;
    if !is_roomy(out) {
        return Err(Refusal::Unfit);
    }
    open_text(suite, keys, string, out)
}

// The parameters are those of the C interface.

// Seals the text of this direction, number and body: writes the sealed string at the start of `out`, and answers its length.
// A refusal writes nothing and answers its number.
#[unsafe(no_mangle)]
pub extern "C" fn card_seal(
    cipher: u8,
    mechanism: u8,
    keys: &[u8],
    direction: u8,
    number: u64,
    body: &[u8],
    out: &mut [u8],
) -> usize
    ensures answer { result ≡ answer (sealing cipher mechanism keys.now direction number body.now (length out.old)) }
    ensures buffer { out.new ≡ left (sealing cipher mechanism keys.now direction number body.now (length out.old)) out.old }
    ensures told { Told (sealing cipher mechanism keys.now direction number body.now (length out.old)) result }
{
    number_of(sealed(cipher, mechanism, keys, direction, number, body, out))
}

// Opens a sealed string: writes direction, number and body at the start of `out`, and answers how many bytes these are.
// A refusal writes nothing and answers its number.
#[unsafe(no_mangle)]
pub extern "C" fn card_open(
    cipher: u8,
    mechanism: u8,
    keys: &[u8],
    string: &[u8],
    out: &mut [u8],
) -> usize
    ensures answer { result ≡ answer (opening cipher mechanism keys.now string.now (length out.old)) }
    ensures buffer { out.new ≡ left (opening cipher mechanism keys.now string.now (length out.old)) out.old }
    ensures told { Told (opening cipher mechanism keys.now string.now (length out.old)) result }
{
    number_of(opened(cipher, mechanism, keys, string, out))
}
