// Associations between a terminal and a card, and the commands that they took; tram_day, which shows each step, has its own.
use crate::bench_card::{Host, KEY, new_card, send};
use anyhow::{Context, anyhow, ensure};
use apdu::Kind;
use card::Powered;
use fares::FareCounter;
use personalise::{KeyLoad, read};
use sealer::RealSealer;
use std::alloc::Global;
use terminal::{
    Connection, Master, Offer, Session, connection_object, first_block, master_object,
    read_connection, read_master, read_session, reply_wanted, start_object,
};

// The size of a session's containers: every string of a fare goes in one block.
pub const CONTAINER: u8 = 64;

// A command, and the random bytes that the card is given with it.
#[derive(Drop)]
pub struct Line {
    pub apdu: Vec<u8>,
    pub random: [u8; 32],
}

// What the terminal holds of an association, with the card's nonce, and the codes that card and terminal sent.
#[derive(Clone, Copy)]
pub struct Channel {
    pub master: Master,
    pub connection: Connection,
    pub session: Session,
    pub nonce: [u8; 16],
    pub agreement: [u8; 16],
    pub start: [u8; 16],
}

// A card, and all commands that it was sent.
#[derive(Drop)]
pub struct Rehearsal {
    heap: Global,
    load: KeyLoad,
    pub card: Powered<RealSealer, FareCounter>,
    pub lines: Vec<Line>,
}

impl Rehearsal {
    // A new card, and nothing sent.
    pub fn new(heap: Global) -> anyhow::Result<Rehearsal> {
        let load = read(KEY)?;
        Ok(Rehearsal {
            heap,
            load,
            card: new_card()?,
            lines: Vec::new(heap),
        })
    }

    // The key that both sides share.
    pub fn key(&self) -> &[u8; 32] {
        self.load.key()
    }

    // Sends a command with random bytes that no other command had, and gives the data of the reply.
    fn send(&mut self, apdu: Vec<u8>) -> anyhow::Result<Vec<u8>> {
        let mut host = Host::new();
        let random = [(self.lines.len() % 256) as u8; 32];
        let len = send(&mut self.card, apdu.as_slice(), &random, &mut host)?;
        self.lines.push(Line { apdu, random })?;
        let data = host.reply.get(0..len.saturating_sub(2));
        Ok(Vec::from_slice(self.heap, data.context("a reply is too long")?)?)
    }

    // Sends an object, and fetches the object that the card replies.
    fn ask(&mut self, kind: Kind, object: &[u8]) -> anyhow::Result<Vec<u8>> {
        ensure!(object.len() <= 255, "an object too long for one block");
        let command = first_block(self.heap, kind, object)?;
        let _status = self.send(command)?;
        let wanted = Vec::from_slice(self.heap, &reply_wanted(kind))?;
        self.send(wanted)
    }

    // A new master.
    fn master(&mut self) -> anyhow::Result<Master> {
        let object = master_object(self.heap, self.load.reference())?;
        let reply = self.ask(Kind::Master, object.as_slice())?;
        let reply = read_master(reply.as_slice()).context("the card gave no master")?;
        Ok(Master::new(self.load.key(), reply.id))
    }

    // A new master, a connection under it, and the connection's session.
    pub fn associate(&mut self, offer: &Offer) -> anyhow::Result<Channel> {
        let master = self.master()?;
        let object = connection_object(self.heap, &master, offer)?;
        let reply = self.ask(Kind::Connection, object.as_slice())?;
        let heard = read_connection(reply.as_slice()).context("the card gave no connection")?;
        let connection = Connection::agreed(&master, offer, &heard).context(
            "the card's MAC is wrong",
        )?;
        let object = start_object(self.heap, &connection, CONTAINER)?;
        let reply = self.ask(Kind::Start, object.as_slice())?;
        let byte = read_session(reply.as_slice()).context("the card started no session")?;
        let session = Session {
            byte,
            container: CONTAINER,
        };
        Ok(Channel {
            master,
            connection,
            session,
            nonce: heard.nonce,
            agreement: heard.mac,
            start: connection.start_mac(CONTAINER),
        })
    }
}
