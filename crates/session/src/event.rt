// What a session makes of what comes to it.

// What a session makes of a block, a fetch or a discard that it does not refuse.
#[derive(Clone, Copy, PartialEq, Eq, Debug)]
pub enum Heard {
    // The last block came again; whether it had completed a command.
    Repeated(bool),
    // The block is joined to those before.
    Joined,
    // A block of the answer is to be given.
    Gives,
    // The session is idle.
    Discarded,
}
