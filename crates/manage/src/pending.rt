// What is pending between two commands.
use apdu::Kind;
use buffer::Buffer;

// The blocks of an object that is not complete, joined.
#[derive(Clone, Copy)]
pub struct Gathered {
    pub kind: Kind,
    pub bytes: Buffer,
}

// A reply that waits, and how many bytes of it were given. It is held whole, since it may be asked for again from its start.
#[derive(Clone, Copy)]
pub struct Waiting {
    pub kind: Kind,
    pub reply: Buffer,
    pub given: usize,
}

// One thing at most is pending.
#[derive(Clone, Copy)]
pub enum Pending {
    Nothing,
    Object(Gathered),
    Reply(Waiting),
}
