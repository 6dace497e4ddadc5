// The calls of a run, and what each came to.
use card::{HostRefusal, LoadRefusal};

// A command: its APDU, the random bytes, and how long a reply buffer and work area the host lends.
#[derive(Clone, Copy)]
pub struct CommandCall<'a> {
    pub apdu: &'a [u8],
    pub random: &'a [u8],
    pub buffer: usize,
    pub work: usize,
}

// A call of a card, with its arguments.
#[derive(Clone, Copy)]
pub enum Call<'a> {
    // The text of a key.
    Load(&'a [u8]),
    PowerOn,
    PowerOff,
    Command(CommandCall<'a>),
}

// What a card answers to a call.
#[derive(Clone, Copy, PartialEq, Eq, Debug)]
pub enum Answer {
    // The call was not made: off, a card takes only load and power on; powered, only command and power off.
    NotTaken,
    // The power was turned on or off.
    Powered,
    // The load was accepted, or refused.
    Loaded(Result<(), LoadRefusal>),
    // The reply is that many bytes, the first of the buffer; or the host is refused.
    Replied(Result<usize, HostRefusal>),
}

// A call's answer, and the host's memory after it: both are empty where the call lends none.
#[derive(Drop)]
pub struct Done {
    pub answer: Answer,
    pub buffer: Vec<u8>,
    pub work: Vec<u8>,
}
