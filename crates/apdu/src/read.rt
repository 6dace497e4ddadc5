// Reading the bytes of a command.
ghost use Rattle.std.specs.Prelude.{◌≡◌, OnSome};
ghost use Rattle.std.specs.Option.{option_map};
ghost use Rattle.byte_lists.specs.Bytes.{Bytes};
ghost use Rattle.apdu.specs.Command.{expected, shape_in, command_in, data_of};
ghost use Rattle.apdu.specs.Writing.{Reads};
ghost use Rattle.apdu.specs.View.{shape_of, command_of};

use crate::body::{Body, Data, Le};
use crate::command::Apdu;

// What an Le byte asks for.
impl From<u8> for Le {
    ghost from_gives = { λ byte le. le.wanted ≡ expected byte };

    fn from(byte: u8) -> Le {
        Le {
            wanted: if byte == 0 { 256 } else { u16::from(byte) },
        }
    }
}

impl<'a> Body<'a> {
    // Reads what stands behind a header; `None` where it is malformed.
    fn read(bytes: &'a [u8]) -> Option<Body<'a>>
        ensures { option_map shape_of result ≡ shape_in bytes.now }
    {
        match bytes {
            [] => Some(Body::Bare),
            [le] => Some(Body::Le(Le::from(*le))),
            [0, ..] => None,
            [lc, rest @ ..] => match rest.split_at_checked(usize::from(*lc))? {
                (bytes, []) => Some(Body::Data(Data { bytes })),
                (bytes, [le]) => Some(Body::Both(Data { bytes }, Le::from(*le))),
                _ => None,
            },
        }
    }

    // The data, empty where there is none.
    pub fn data(&self) -> &'a [u8]
        ensures { result.now ≡ data_of (shape_of self.now) }
    {
        match *self {
            Body::Data(data) | Body::Both(data, _) => data.bytes,
            Body::Bare | Body::Le(_) => &[],
        }
    }
}

impl<'a> Apdu<'a> {
    // Reads a command from its bytes; `None` exactly where they are malformed.
    // An Option and no TryFrom: every caller answers one status word to all that is malformed.
    #[tactic(auto, using(crate::proofs::ReadBack::reads_none))]
    pub fn read(bytes: &'a [u8]) -> Option<Apdu<'a>>
        ensures command { option_map command_of result ≡ command_in bytes.now }
        ensures exact { Reads bytes.now (option_map command_of result) }
    {
        let (&[cla, ins, p1, p2], behind) = bytes.split_first_chunk::<4>()?;
        Some(Apdu {
            cla,
            ins,
            p1,
            p2,
            body: Body::read(behind)?,
        })
    }
}
