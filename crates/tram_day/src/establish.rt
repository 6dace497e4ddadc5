// From a powered card to a started session. Each step shows a line and goes to two cards, so measure, which only keeps what it
// sent, has steps of its own.
use crate::cards::Cards;
use crate::line::{data_of, send};
use crate::talk::Channel;
use anyhow::{Context, ensure};
use apdu::Kind;
use personalise::KeyLoad;
use terminal::{
    Connection, Master, Offer, Session, connection_object, first_block, master_end_object,
    master_object, read_connection, read_master, read_session, reply_wanted, start_object,
};

// The terminal has every cipher and every mechanism.
const OFFER: Offer = Offer {
    nonce: *b"terminal's nonce",
    ciphers: 0x07,
    mechanisms: 0x05,
};

// The size of the session's containers.
const CONTAINER: u8 = 24;

// The card says of itself what it is.
pub fn discover(cards: &mut Cards<'_>) -> anyhow::Result<()> {
    println!(cards.rt; "")?;
    println!(cards.rt; "Power on; the card says what it is")?;
    cards.power_on()?;
    let _replies = send(cards, &reply_wanted(Kind::Discovery))?;
    Ok(())
}

// Sends an object in one block.
pub fn tell(cards: &mut Cards<'_>, kind: Kind, object: &[u8]) -> anyhow::Result<()> {
    ensure!(object.len() <= 255, "an object too long for one block");
    let command = first_block(cards.rt.alloc(), kind, object)?;
    let _replies = send(cards, command.as_slice())?;
    Ok(())
}

// Sends an object, and fetches the object that the card replies.
fn ask(cards: &mut Cards<'_>, kind: Kind, object: &[u8]) -> anyhow::Result<Vec<u8>> {
    tell(cards, kind, object)?;
    let replies = send(cards, &reply_wanted(kind))?;
    Ok(Vec::from_slice(cards.rt.alloc(), data_of(replies.left.as_slice()))?)
}

// A master under the key that both sides have.
pub fn establish_master(cards: &mut Cards<'_>, load: &KeyLoad) -> anyhow::Result<Master> {
    println!(cards.rt; "")?;
    println!(cards.rt; "A master: both sides make its secret of the key")?;
    let object = master_object(cards.rt.alloc(), load.reference())?;
    let reply = ask(cards, Kind::Master, object.as_slice())?;
    let master = read_master(reply.as_slice()).context("the card gave no master")?;
    Ok(Master::new(load.key(), master.id))
}

// A connection under the master, where the card's MAC is right.
pub fn establish_connection(cards: &mut Cards<'_>, master: &Master) -> anyhow::Result<Connection> {
    println!(cards.rt; "")?;
    println!(cards.rt;
        "A connection: both sides derive its keys, and the card proves that it has them"
    )?;
    let object = connection_object(cards.rt.alloc(), master, &OFFER)?;
    let reply = ask(cards, Kind::Connection, object.as_slice())?;
    let reply = read_connection(reply.as_slice()).context("the card gave no connection")?;
    let connection = Connection::agreed(master, &OFFER, &reply).context("the card's MAC is wrong")?;
    println!(cards.rt; "  the card's MAC is right")?;
    Ok(connection)
}

// The session of a connection.
pub fn start<'a, 'b>(
    cards: &'a mut Cards<'b>,
    connection: Connection,
) -> anyhow::Result<Channel<'a, 'b>> {
    println!(cards.rt; "")?;
    println!(cards.rt; "A session, with blocks of up to {CONTAINER} bytes")?;
    let object = start_object(cards.rt.alloc(), &connection, CONTAINER)?;
    let reply = ask(cards, Kind::Start, object.as_slice())?;
    let byte = read_session(reply.as_slice()).context("the card started no session")?;
    let session = Session {
        byte,
        container: CONTAINER,
    };
    Ok(Channel {
        cards,
        connection,
        session,
    })
}

// The power goes, and connections with it; their master stays until it is terminated.
pub fn end(cards: &mut Cards<'_>, master: &Master, connection: &Connection) -> anyhow::Result<()> {
    println!(cards.rt; "")?;
    println!(cards.rt;
        "Power off and on: the connection is gone, the master is there to be terminated"
    )?;
    cards.power_off()?;
    cards.power_on()?;
    let object = start_object(cards.rt.alloc(), connection, CONTAINER)?;
    tell(cards, Kind::Start, object.as_slice())?;
    let object = master_end_object(cards.rt.alloc(), master)?;
    tell(cards, Kind::Terminate, object.as_slice())
}
