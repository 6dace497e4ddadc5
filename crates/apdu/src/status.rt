// The status words that end every reply.

// Why a reply ends, each case with two bytes of its own.
#[derive(Clone, Copy, PartialEq, Eq, Debug)]
pub enum Status {
    // 90 00: carried out, and nothing is left to fetch.
    Done,
    // 62 F1: more of the reply is left to fetch.
    MoreToFetch,
    // 62 F3: carried out, and a reply waits to be fetched.
    ReplyWaits,
    // 63 F1: the object is not complete, more blocks have to be sent.
    MoreToSend,
    // 64 00: nothing in common with the card, or an identifier that is in use.
    NotPossible,
    // 67 00: a malformed command, or a wrong length.
    WrongLength,
    // 69 83: asked beyond a limit.
    LimitPassed,
    // 69 85: not in this state.
    NotNow,
    // 69 88: a wrong MAC, or sealed bytes that do not open as they must.
    NotAuthentic,
    // 69 89: the card takes this command only over the channel.
    ChannelRequired,
    // 6A 80: the data is not laid out as it must be.
    WrongData,
    // 6A 83: no such record.
    NoSuchRecord,
    // 6A 84: no room.
    NoRoom,
    // 6A 86: P1 or P2 is not one of those listed, or out of turn.
    WrongParameters,
    // 6A 88: no such identifier.
    NoSuchIdentifier,
    // 6D 00: no such instruction.
    UnknownInstruction,
    // 92 and a byte: a session block was taken; the byte tells the row, and whether there is more.
    Taken(u8),
}

// The two bytes are no status word.
#[derive(Clone, Copy, PartialEq, Eq, Debug)]
pub struct NoSuchStatus;
