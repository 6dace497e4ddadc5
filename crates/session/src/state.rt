// What a started session holds.
use buffer::Buffer;

// A block as it passed over the line: how many follow it, and its bytes.
#[derive(Clone, Copy)]
pub struct Block {
    pub p2: u8,
    pub bytes: Buffer,
}

// A command that is gathered: the blocks so far, joined, and the last of them.
#[derive(Clone, Copy)]
pub struct Part {
    pub joined: Buffer,
    pub last: Block,
}

// A sealed answer that can be fetched, and the block that completed its command.
#[derive(Clone, Copy)]
pub struct Held {
    pub answer: Buffer,
    pub last: Block,
}

// A session is idle, gathering or answered.
#[derive(Clone, Copy)]
pub enum Talk {
    Idle,
    Gathering(Part),
    Answered(Held),
}

// A started session, with the size of its container: the most bytes that one block of it has.
#[derive(Clone, Copy)]
pub struct Session {
    pub container: u8,
    pub talk: Talk,
}
