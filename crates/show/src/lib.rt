// Bytes as people read and write them, for the programs.
#![tactic(auto)]

use apdu::{NoSuchStatus, Status};
use numerals::read_hexadecimal;
use std::alloc::{AllocError, Global};
use std::fmt;

// Bytes that are shown as pairs of capital digits, with a space between two pairs: 00 73 00 A0 00.
#[derive(Clone, Copy)]
pub struct SpacedPairs<'a>(pub &'a [u8]);

// Bytes that are shown as pairs of capital digits; a line alone for none.
#[derive(Clone, Copy)]
pub struct JoinedPairs<'a>(pub &'a [u8]);

// A reply that is shown as spaced pairs, with its status word in words behind them: 6A 80  wrong data.
#[derive(Clone, Copy)]
pub struct Reply<'a>(pub &'a [u8]);

// The digits 0-9 A-F.
const DIGITS: &[u8; 16] = b"0123456789ABCDEF";

// A byte's pair of digits, the higher first. They are looked up: `{byte:02X}` takes two to three times as long.
fn pair_of(byte: u8) -> [u8; 2] {
    [
        DIGITS[usize::from(byte >> 4)],
        DIGITS[usize::from(byte & 15)],
    ]
}

// Digits and spaces, which are text.
fn write_digits<W: fmt::Write>(digits: &[u8], f: &mut fmt::Formatter<W>) -> fmt::Result {
    let text = str::from_utf8(digits).map_err(|_no_text| fmt::Error)?;
    f.write_str(text)
}

impl fmt::Display for SpacedPairs<'_> {
    fn fmt<W: fmt::Write>(&self, f: &mut fmt::Formatter<W>) -> fmt::Result {
        let Some((first, rest)) = self.0.split_first() else {
            return Ok(());
        };
        write_digits(&pair_of(*first), f)?;
        for byte in rest {
            let [high, low] = pair_of(*byte);
            write_digits(&[b' ', high, low], f)?;
        }
        Ok(())
    }
}

impl fmt::Display for JoinedPairs<'_> {
    fn fmt<W: fmt::Write>(&self, f: &mut fmt::Formatter<W>) -> fmt::Result {
        if self.0.is_empty() {
            return f.write_str("-");
        }
        // Eight bytes at a time, so that a long string takes few calls.
        let (eights, rest) = self.0.as_chunks::<8>();
        for eight in eights {
            write_digits(eight.map(pair_of).as_flattened(), f)?;
        }
        for byte in rest {
            write_digits(&pair_of(*byte), f)?;
        }
        Ok(())
    }
}

// The status word that ends a reply.
fn status_of(reply: &[u8]) -> Result<Status, NoSuchStatus> {
    let bytes = reply.last_chunk().ok_or(NoSuchStatus)?;
    Status::try_from(*bytes)
}

impl fmt::Display for Reply<'_> {
    fn fmt<W: fmt::Write>(&self, f: &mut fmt::Formatter<W>) -> fmt::Result {
        write!(f, "{}  ", SpacedPairs(self.0))?;
        match status_of(self.0) {
            Ok(status) => write!(f, "{status}"),
            Err(unknown) => write!(f, "{unknown}"),
        }
    }
}

// The bytes that pairs of capital digits write, or a line alone for none; nothing where the text is neither.
pub fn unhex(heap: Global, text: &str) -> Result<Option<Vec<u8>>, AllocError> {
    let digits = match text {
        "-" => &[],
        pairs => pairs.as_bytes(),
    };
    let mut bytes = vec![in heap; 0u8; digits.len() / 2]?;
    Ok(read_hexadecimal(digits, bytes.as_mut_slice()).map(|()| bytes))
}

#[cfg(test)]
mod tests {
    use super::*;
    use std::test::Fail;

    #[test]
    fn bytes_are_shown(rt: HostRuntime) -> Result<(), Fail> {
        let heap = rt.alloc();
        assert!(rt; SpacedPairs(&[0x00, 0x73, 0xA0]).to_string(heap)?.as_str() == "00 73 A0");
        assert!(rt; SpacedPairs(&[]).to_string(heap)?.as_str() == "");
        assert!(rt; JoinedPairs(&[0x0F, 0xF0]).to_string(heap)?.as_str() == "0FF0");
        assert!(rt; JoinedPairs(&[]).to_string(heap)?.as_str() == "-");
        Ok(())
    }

    #[test]
    fn replies_are_told(rt: HostRuntime) -> Result<(), Fail> {
        let heap = rt.alloc();
        assert!(rt; Reply(&[0x07, 0x90, 0x00]).to_string(heap)?.as_str() == "07 90 00  done");
        assert!(rt; Reply(&[0x90, 0x01]).to_string(heap)?.as_str() == "90 01  no such status word");
        assert!(rt; Reply(&[0x90]).to_string(heap)?.as_str() == "90  no such status word");
        Ok(())
    }

    #[test]
    fn digits_are_read(rt: HostRuntime) -> Result<(), Fail> {
        let heap = rt.alloc();
        assert!(rt; unhex(heap, "0AFF")?.ok_or("refused")?.as_slice() == [0x0A, 0xFF].as_slice());
        assert!(rt; unhex(heap, "-")?.ok_or("refused")?.is_empty());
        assert!(rt; unhex(heap, "0a")?.is_none());
        assert!(rt; unhex(heap, "0AF")?.is_none());
        Ok(())
    }
}
