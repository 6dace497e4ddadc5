// Reading the text that a frame holds.
ghost use Rattle.std.specs.Prelude.{◌≡◌, ◌+◌, ◌<◌, ◌≤◌, length, take, drop, if◌then◌else◌, Some, None};
ghost use Rattle.std.specs.Str.{bytes_eq};
ghost use Rattle.byte_lists.specs.Numbers.{number};
ghost use Rattle.frame.specs.Frame.{blank, framed, missing, stated, text_of, told};

use integrity::Integrity;
use sealing::{Direction, Opened};
use secret::same;

// Whether every byte is zero.
fn is_blank(bytes: &[u8]) -> bool
    ensures { result ≡ blank bytes.now }
{
    bytes.iter().all(|b| *b == 0)
}

// A block's length is no type of its own: ciphers have it as a plain number, and each caller would make one.
// So many bytes, and the fewest more that make whole blocks.
pub fn in_blocks(len: usize, block: usize) -> usize
    requires { (len ≤ 288) × ((1 ≤ block) × (block ≤ 16)) }
    ensures { result ≡ len + missing block len }
{
    len.next_multiple_of(block)
}

// The body's length that a frame states.
fn stated_len(frame: &[u8]) -> usize
    requires { 11 ≤ length frame.now }
    ensures is { result ≡ stated frame.now }
    ensures small { result < 65536 }
{
    u16::from_be_bytes(*frame[9..11].as_array().unwrap()) as usize
}

// The number that a frame states.
fn stated_number(frame: &[u8]) -> u64
    requires { 11 ≤ length frame.now }
    ensures { result ≡ number (take 8 (drop 1 frame.now)) }
{
    u64::from_be_bytes(*frame[1..9].as_array().unwrap())
}

// Whether the check behind the byte `end` is the one over what stands before it.
fn is_checked<I: Integrity>(mechanism: &I, frame: &[u8], end: usize) -> bool
    requires { end + I.LEN ≤ length frame.now }
    ensures { result ≡ bytes_eq (I.check mechanism.now (take end frame.now)) (take I.LEN (drop end frame.now)) }
{
    let tag = I::LEN;
    // In fixed memory: no check has more than 16 bytes.
    let mut expected = [0u8; 16];
    mechanism.write_check(&frame[0..end], &mut expected[0..tag]);
    same(&expected[0..tag], &frame[end..end + tag])
}

// The body's length that bytes state, where they are laid out as a frame.
fn body_len<I: Integrity>(mechanism: &I, block: usize, frame: &[u8]) -> Option<usize>
    requires { (1 ≤ block) × (block ≤ 16) }
    ensures { result ≡ (if framed block I.LEN (I.check mechanism.now) frame.now then Some (stated frame.now) else None) }
{
    if frame.len() < 11 {
        return None;
    }
    let len = stated_len(frame);
    let end = 11 + len;
    let tag = I::LEN;
    let framed = (2..=261).contains(&len)
        && frame.len() == in_blocks(end + tag, block)
        && is_checked(mechanism, frame, end)
        && is_blank(&frame[end + tag..]);
    framed.then_some(len)
}

// The text that a frame holds, where the bytes are one: its head, and where its body stands.
pub fn read_frame<I: Integrity>(mechanism: &I, block: usize, frame: &[u8]) -> Option<Opened>
    requires { (1 ≤ block) × (block ≤ 16) }
    ensures { result ≡ told (text_of block I.LEN (I.check mechanism.now) frame.now) }
{
    let len = body_len(mechanism, block, frame)?;
    let direction = Direction::try_from(frame[0]).ok()?;
    Some(Opened {
        direction,
        number: stated_number(frame),
        at: 11,
        len,
    })
}
