// What is asked, with what stands behind the header.
use apdu::{Body, Kind};
use table_rows::Row;

// A block of a session's command: the session's row, how many blocks follow, and what stands behind the header.
#[derive(Clone, Copy)]
pub struct Block<'a> {
    pub row: Row,
    pub p2: u8,
    pub body: Body<'a>,
}

// The fetch of a block of a session's answer: the session's row, the block's number from 0, and what stands behind.
#[derive(Clone, Copy)]
pub struct Fetch<'a> {
    pub row: Row,
    pub number: u8,
    pub body: Body<'a>,
}

// The discard of a session's answer: the session's row, and what stands behind the header.
#[derive(Clone, Copy)]
pub struct Discard<'a> {
    pub row: Row,
    pub body: Body<'a>,
}

// What an APDU asks of the card. A kind and a body stand side by side: the card asks each apart, so a struct of the two would be
// taken apart at once.
#[derive(Clone, Copy)]
pub enum Request<'a> {
    // No APDU.
    Malformed,
    // Neither MANAGE SECURE CHANNEL nor TRANSACT DATA.
    Other,
    // One of the two, with a P1 and P2 that are not listed.
    Unlisted,
    // MANAGE SECURE CHANNEL, P2 80: a first command block.
    Begin(Kind, Body<'a>),
    // P2 00: a next command block.
    Continue(Kind, Body<'a>),
    // P1 00, P2 A0: the first reply block of a discovery.
    Discover(Body<'a>),
    // P2 A0: the first reply block of another kind.
    Answer(Kind, Body<'a>),
    // P2 20: a next reply block.
    GoOn(Kind, Body<'a>),
    // TRANSACT DATA: a block of a command.
    Block(Block<'a>),
    // A block of the answer is wanted.
    Fetch(Fetch<'a>),
    // The answer is no longer wanted.
    Discard(Discard<'a>),
}
