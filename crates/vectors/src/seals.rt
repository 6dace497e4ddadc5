// Sealing and opening as vectors: a text is its direction, eight bytes of number, and its body.
use crate::fault::Fault;
use crate::run::{Outcome, copied, exactly};
use sealer::RealSealer;
use sealing::{Direction, Sealer, Suite, Text};
use std::alloc::Global;

// The sealed string of a text.
pub fn sealed(heap: Global, suite: Suite, keys: &[u8], text: &[u8]) -> Outcome {
    let keys = exactly::<40>(keys)?;
    if !(11..=270).contains(&text.len()) {
        return Err(Fault::OtherLength);
    }
    let direction = Direction::try_from(text[0]).map_err(|_unknown| Fault::OtherLength)?;
    let number = exactly::<8>(&text[1..9])?;
    let text = Text {
        direction,
        number: u64::from_be_bytes(*number),
        body: &text[9..],
    };
    // A sealer has no heap: it is lent room, and answers the length.
    let mut out = [0; 288];
    let len = RealSealer.seal(suite, keys, text, &mut out);
    copied(heap, &out[..len])
}

// The text of a string, or no bytes where it does not open.
#[tactic(auto, using(sealing::proofs::Body::body_given))]
pub fn opened(heap: Global, suite: Suite, keys: &[u8], string: &[u8]) -> Outcome {
    let keys = exactly::<40>(keys)?;
    let mut buffer = string.to_vec(heap)?;
    let mut out = Vec::new(heap);
    let Some(text) = RealSealer.open(suite, keys, buffer.as_mut_slice()) else {
        return Ok(out);
    };
    out.push(u8::from(text.direction))?;
    out.extend_from_slice(&text.number.to_be_bytes())?;
    out.extend_from_slice(text.body(buffer.as_slice()).unwrap())?;
    Ok(out)
}
