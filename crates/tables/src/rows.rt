// The rows of the card's tables.
use personalise::KeyLoad;
use sealing::Suite;
use session::Session;

// A key: what its load said, and how many masters it has yielded.
#[derive(Clone, Copy)]
pub struct Key {
    pub load: KeyLoad,
    pub count: u16,
}

// A row that an item rests on is a plain number: each look-up asks whether there is such a row, so an item may be made with any.

// A master: its identifier, its secret, the row of its key, and how many connections it has yielded.
#[derive(Clone, Copy)]
pub struct Master {
    pub id: [u8; 16],
    pub secret: [u8; 32],
    pub key: usize,
    pub count: u32,
}

// A connection: its identifier, the row of its master, its suite, its key for MACs, the sealer's keys, how many commands it has
// accepted, and its session once that is started.
#[derive(Clone, Copy)]
pub struct Connection {
    pub id: [u8; 16],
    pub master: usize,
    pub suite: Suite,
    pub mac: [u8; 16],
    pub keys: [u8; 40],
    pub count: u64,
    pub session: Option<Session>,
}

// All rows; a free one holds nothing.
#[derive(Clone, Copy)]
pub struct Tables {
    pub keys: [Option<Key>; 4],
    pub masters: [Option<Master>; 4],
    pub connections: [Option<Connection>; 4],
}
