// The bytes of a status word, and what it says in words: three tables of constants, a line for each word. The bytes are not
// looked up the other way round: that takes a list of all words, and a look beside it at Taken, which is no constant.
ghost use Rattle.std.specs.Prelude.{◌≡◌, Some, MatchResult, ◌≢◌};
ghost use Rattle.apdu.specs.StatusWords.{status_bytes, status_words, no_status_words};
ghost use Rattle.apdu.specs.declared.status.Status.{Status as StatusOf};

use crate::status::{NoSuchStatus, Status};
use std::error::Error;
use std::fmt;

// SW1 and SW2.
impl From<Status> for [u8; 2] {
    ghost from_gives = { λ s bytes. bytes ≡ status_bytes s };

    fn from(status: Status) -> [u8; 2] {
        match status {
            Status::Done => [0x90, 0x00],
            Status::MoreToFetch => [0x62, 0xF1],
            Status::ReplyWaits => [0x62, 0xF3],
            Status::MoreToSend => [0x63, 0xF1],
            Status::NotPossible => [0x64, 0x00],
            Status::WrongLength => [0x67, 0x00],
            Status::LimitPassed => [0x69, 0x83],
            Status::NotNow => [0x69, 0x85],
            Status::NotAuthentic => [0x69, 0x88],
            Status::ChannelRequired => [0x69, 0x89],
            Status::WrongData => [0x6A, 0x80],
            Status::NoSuchRecord => [0x6A, 0x83],
            Status::NoRoom => [0x6A, 0x84],
            Status::WrongParameters => [0x6A, 0x86],
            Status::NoSuchIdentifier => [0x6A, 0x88],
            Status::UnknownInstruction => [0x6D, 0x00],
            Status::Taken(sw2) => [0x92, sw2],
        }
    }
}

// The status word with these two bytes.
impl TryFrom<[u8; 2]> for Status {
    type Error = NoSuchStatus;

    ghost try_from_gives = { λ bytes read. MatchResult read (λ s. status_bytes s ≡ bytes) (λ _. (s : StatusOf) → status_bytes s ≢ bytes) };

    fn try_from(bytes: [u8; 2]) -> Result<Status, NoSuchStatus> {
        match bytes {
            [0x90, 0x00] => Ok(Status::Done),
            [0x62, 0xF1] => Ok(Status::MoreToFetch),
            [0x62, 0xF3] => Ok(Status::ReplyWaits),
            [0x63, 0xF1] => Ok(Status::MoreToSend),
            [0x64, 0x00] => Ok(Status::NotPossible),
            [0x67, 0x00] => Ok(Status::WrongLength),
            [0x69, 0x83] => Ok(Status::LimitPassed),
            [0x69, 0x85] => Ok(Status::NotNow),
            [0x69, 0x88] => Ok(Status::NotAuthentic),
            [0x69, 0x89] => Ok(Status::ChannelRequired),
            [0x6A, 0x80] => Ok(Status::WrongData),
            [0x6A, 0x83] => Ok(Status::NoSuchRecord),
            [0x6A, 0x84] => Ok(Status::NoRoom),
            [0x6A, 0x86] => Ok(Status::WrongParameters),
            [0x6A, 0x88] => Ok(Status::NoSuchIdentifier),
            [0x6D, 0x00] => Ok(Status::UnknownInstruction),
            [0x92, row] => Ok(Status::Taken(row)),
            _ => Err(NoSuchStatus),
        }
    }
}

impl Status {
    // What the status word says, in words. Beside `Display`, since a formatter may fail and this can not.
    pub fn words(self) -> &'static str
        ensures { result.now ≡ status_words self }
    {
        match self {
            Status::Done => "done",
            Status::MoreToFetch => "more of the reply is left to fetch",
            Status::ReplyWaits => "done, a reply waits to be fetched",
            Status::MoreToSend => "incomplete, more blocks have to be sent",
            Status::NotPossible => "nothing in common, or identifier in use",
            Status::WrongLength => "malformed command or wrong length",
            Status::LimitPassed => "beyond the limit",
            Status::NotNow => "not in this state",
            Status::NotAuthentic => "wrong MAC, or not opened by the key",
            Status::ChannelRequired => "only over the channel",
            Status::WrongData => "wrong data",
            Status::NoSuchRecord => "no such record",
            Status::NoRoom => "no room",
            Status::WrongParameters => "wrong P1 or P2",
            Status::NoSuchIdentifier => "no such identifier",
            Status::UnknownInstruction => "unknown instruction",
            Status::Taken(_) => "session block taken",
        }
    }
}

// The status word in its words.
impl fmt::Display for Status {
    ghost output = { λ s. Some (status_words s) };

    fn fmt<W: fmt::Write>(&self, f: &mut fmt::Formatter<W>) -> fmt::Result {
        f.write_str(self.words())
    }
}

impl fmt::Display for NoSuchStatus {
    ghost output = { λ _. Some no_status_words };

    fn fmt<W: fmt::Write>(&self, f: &mut fmt::Formatter<W>) -> fmt::Result {
        f.write_str("no such status word")
    }
}

impl Error for NoSuchStatus {}
