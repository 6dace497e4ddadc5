// Sealing and opening under any cipher and any mechanism.
#![tactic(auto)]

ghost use Rattle.std.specs.Prelude.{◌≡◌, ◌≤◌, length};
ghost use Rattle.sealing.specs.Lent.{Seals, OpensTo, as_text};
ghost use Rattle.envelope.specs.Envelope.{deciphered, enciphered};

use cipher::{BlockCipher, cbc_decrypt, cbc_encrypt};
use frame::{read_frame, write_frame};
use integrity::Integrity;
use sealing::{Opened, Text};

// Writes the sealed string of a text at the start of `out`, leaves the rest, and answers the string's length.
pub fn seal_under<C: BlockCipher, I: Integrity>(
    cipher: &C,
    mechanism: &I,
    text: Text<'_>,
    out: &mut [u8],
) -> usize
    requires { 288 ≤ length out.old }
    ensures { Seals (enciphered C.BLOCK (C.enc cipher.now) (I.check mechanism.now) (as_text text.entry)) out.old out.new result }
{
    let len = write_frame(
        mechanism,
        C::BLOCK,
        text.direction,
        text.number,
        text.body,
        out,
    );
    cbc_encrypt(cipher, &mut out[0..len], 0);
    len
}

// Opens the string in place; where it does not open, it is as it was.
pub fn open_under<C: BlockCipher, I: Integrity>(
    cipher: &C,
    mechanism: &I,
    string: &mut [u8],
) -> Option<Opened>
    ensures { OpensTo (deciphered C.BLOCK I.LEN (C.dec cipher.now) (I.check mechanism.now) string.old) string.old string.new result }
{
    if string.len() % C::BLOCK != 0 {
        return None;
    }
    cbc_decrypt(cipher, string, 0);
    let opened = read_frame(mechanism, C::BLOCK, string);
    if opened.is_none() {
        cbc_encrypt(cipher, string, 0);
    }
    opened
}
