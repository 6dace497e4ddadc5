// Fixed stores of bytes of which the first are in use.
#![tactic(auto)]

ghost use Rattle.std.specs.Prelude.{◌≤◌};

// How many bytes the card's buffers can hold: as many as the longest sealed string has.
pub const ROOM: usize = 288;

// Up to `N` bytes. What stands behind the first `len` of them is free. No `impl Model`: `Copy` would need the free bytes back.
#[derive(Clone, Copy)]
pub struct Store<const N: usize> {
    bytes: [u8; N],
    len: usize,
    ghost within: { len ≤ N },
}

// A store of any sealed string.
pub type Buffer = Store<ROOM>;

// What more does not fit.
#[derive(Clone, Copy, PartialEq, Eq, Debug)]
pub struct Full;

impl<const N: usize> Store<N> {
    ghost use Rattle.std.specs.Prelude.{◌≡◌, [], ◌++◌, length, take, if◌then◌else◌, nat_le, is_ok};
    ghost use Rattle.buffer.specs.Held.{held};

    // Holds nothing yet.
    pub fn new() -> Store<N>
        ensures { held result ≡ [] }
    {
        Store {
            bytes: [0; N],
            len: 0,
        }
    }

    // Holds the first `len` of these bytes.
    pub fn of(bytes: [u8; N], len: usize) -> Store<N>
        ensures { held result ≡ take len bytes.entry }
    {
        Store {
            bytes,
            len: len.min(N),
        }
    }

    // Holds these bytes.
    pub fn from_slice(part: &[u8]) -> Store<N>
        requires { length part.now ≤ N }
        ensures { held result ≡ part.now }
    {
        let mut store = Store::new();
        store.append(part).unwrap();
        store
    }

    // The bytes held.
    pub fn as_slice(&self) -> &[u8]
        ensures bytes { result.now ≡ held self.now }
        ensures within { length result.now ≤ N }
    {
        &self.bytes[..self.len]
    }

    // How many bytes are held.
    pub fn len(&self) -> usize
        ensures count { result ≡ length (held self.now) }
        ensures within { result ≤ N }
    {
        self.as_slice().len()
    }

    // Holds these bytes behind the others, or is left as it was where they do not fit.
    pub fn append(&mut self, part: &[u8]) -> Result<(), Full>
        ensures fits { is_ok result ≡ nat_le (length (held self.old ++ part.now)) N }
        ensures after { held self.new ≡ (if is_ok result then held self.old ++ part.now else held self.old) }
    {
        let at = self.len();
        if part.len() > N - at {
            return Err(Full);
        }
        let room = &mut self.bytes[..];
        room[at..at + part.len()].copy_from_slice(part);
        self.len = at + part.len();
        Ok(())
    }
}
