// The five things that MANAGE SECURE CHANNEL is about.
ghost use Rattle.apdu.specs.Kinds.{IsP1, Says};

use crate::status::Status;

// What a command of MANAGE SECURE CHANNEL is about, each with its P1.
#[derive(Clone, Copy, PartialEq, Eq, Debug)]
pub enum Kind {
    // What the card has, and how many failures it counted.
    Discovery = 0x00,
    // A master from a key.
    Master = 0x01,
    // A connection from a master.
    Connection = 0x02,
    // The start of a connection's session.
    Start = 0x03,
    // The end of a master or of a connection.
    Terminate = 0x04,
}

// The kind's P1.
impl From<Kind> for u8 {
    ghost from_gives = { IsP1 };

    fn from(kind: Kind) -> u8 {
        kind as u8
    }
}

// The kind that a P1 says, or the status word of a P1 that is not listed.
impl TryFrom<u8> for Kind {
    type Error = Status;

    ghost try_from_gives = { Says };

    fn try_from(p1: u8) -> Result<Kind, Status> {
        match p1 {
            0x00 => Ok(Kind::Discovery),
            0x01 => Ok(Kind::Master),
            0x02 => Ok(Kind::Connection),
            0x03 => Ok(Kind::Start),
            0x04 => Ok(Kind::Terminate),
            _ => Err(Status::WrongParameters),
        }
    }
}
