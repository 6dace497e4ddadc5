//! Joined blocks: one object, whose header is judged as soon as its bytes are there.
ghost use Rattle.std.specs.Prelude.{◌≡◌, ◌<◌, length};
ghost use Rattle.objects.specs.Joined.{incomplete, header_of, filled, object, seen};

use crate::tag::OBJECT;
use std::cmp::Ordering;

// The length is in the next byte.
const LONG_FORM: u8 = 0x81;

/// Why joined blocks are no object's value.
#[derive(Clone, Copy, PartialEq, Eq, Debug)]
pub enum Unread {
    /// They are the beginning of an object: no byte is wrong yet, and more are to come.
    Incomplete,
    /// No object begins so: a bad header, or a byte too many.
    Bad,
}

/// A header of `head` bytes, before a value of `size` bytes.
#[derive(Clone, Copy, PartialEq, Eq, Debug)]
pub struct Header {
    pub head: u8,
    pub size: u8,
}

impl Header {
    /// Reads the header at the front of the bytes.
    pub fn read(bytes: &[u8]) -> Result<Header, Unread>
        ensures { result ≡ header_of bytes.now }
    {
        match bytes {
            [] | [OBJECT] | [OBJECT, LONG_FORM] => Err(Unread::Incomplete),
            [OBJECT, LONG_FORM, size, ..] => Ok(Header {
                head: 3,
                size: *size,
            }),
            [OBJECT, size @ 0x00..=0x7F, ..] => Ok(Header {
                head: 2,
                size: *size,
            }),
            _ => Err(Unread::Bad),
        }
    }

    // The value behind this header, where these bytes are the whole object.
    fn value(self, bytes: &[u8]) -> Result<&[u8], Unread>
        ensures { seen result ≡ filled self.head self.size bytes.now }
    {
        let head = usize::from(self.head);
        let whole = head + usize::from(self.size);
        match bytes.len().cmp(&whole) {
            Ordering::Less => Err(Unread::Incomplete),
            Ordering::Greater => Err(Unread::Bad),
            Ordering::Equal => Ok(&bytes[head..]),
        }
    }
}

/// Reads joined blocks as one object, and gives its value.
pub fn read_object(bytes: &[u8]) -> Result<&[u8], Unread>
    ensures object { seen result ≡ object bytes.now }
    ensures short { seen result ≡ incomplete → length bytes.now < 258 }
{
    Header::read(bytes)?.value(bytes)
}
