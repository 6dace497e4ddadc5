// Reading what an APDU asks of the card.
ghost use Rattle.std.specs.Prelude.{◌≡◌, Some};
ghost use Rattle.apdu.specs.View.{shape_of, command_of};
ghost use Rattle.apdu.specs.Writing.{Proper};
ghost use Rattle.law.specs.Request.{discovers, terminates, by_p2, manages, transacts, by_header, request};
ghost use Rattle.request.specs.View.{kind_of, asks, Formed};

use crate::request::{Block, Discard, Fetch, Request};
use apdu::{Apdu, Body, Kind};
use table_rows::Row;

impl<'a> Request<'a> {
    // A discovery, by P2.
    fn discovery(p2: u8, body: Body<'a>) -> Request<'a>
        requires { Proper (shape_of body) }
        ensures asks { asks result ≡ discovers p2 (shape_of body.entry) }
        ensures formed { Formed result }
    {
        match p2 {
            0xA0 => Request::Discover(body),
            0x20 => Request::GoOn(Kind::Discovery, body),
            _ => Request::Unlisted,
        }
    }

    // A termination, by P2.
    fn termination(p2: u8, body: Body<'a>) -> Request<'a>
        requires { Proper (shape_of body) }
        ensures asks { asks result ≡ terminates p2 (shape_of body.entry) }
        ensures formed { Formed result }
    {
        match p2 {
            0x80 => Request::Begin(Kind::Terminate, body),
            0x00 => Request::Continue(Kind::Terminate, body),
            _ => Request::Unlisted,
        }
    }

    // A kind that has command and reply blocks, by P2.
    fn exchange(kind: Kind, p2: u8, body: Body<'a>) -> Request<'a>
        requires { Proper (shape_of body) }
        ensures asks { asks result ≡ by_p2 (kind_of kind) p2 (shape_of body.entry) }
        ensures formed { Formed result }
    {
        match p2 {
            0x80 => Request::Begin(kind, body),
            0x00 => Request::Continue(kind, body),
            0xA0 => Request::Answer(kind, body),
            0x20 => Request::GoOn(kind, body),
            _ => Request::Unlisted,
        }
    }

    // MANAGE SECURE CHANNEL, by P1 and P2.
    fn manage(p1: u8, p2: u8, body: Body<'a>) -> Request<'a>
        requires { Proper (shape_of body) }
        ensures asks { asks result ≡ manages p1 p2 (shape_of body.entry) }
        ensures formed { Formed result }
    {
        match Kind::try_from(p1) {
            Ok(Kind::Discovery) => Request::discovery(p2, body),
            Ok(Kind::Terminate) => Request::termination(p2, body),
            Ok(kind) => Request::exchange(kind, p2, body),
            Err(_) => Request::Unlisted,
        }
    }

    // TRANSACT DATA, by P1 and P2.
    fn transact(p1: u8, p2: u8, body: Body<'a>) -> Request<'a>
        requires { Proper (shape_of body) }
        ensures asks { asks result ≡ transacts p1 p2 (shape_of body.entry) }
        ensures formed { Formed result }
    {
        let row = Row::of_p1(p1);
        match p1 % 64 {
            0 => Request::Block(Block { row, p2, body }),
            1 => Request::Fetch(Fetch {
                row,
                number: p2,
                body,
            }),
            2 if p2 == 0 => Request::Discard(Discard { row, body }),
            _ => Request::Unlisted,
        }
    }

    // What a command asks, by its header.
    fn by_header(command: Apdu<'a>) -> Request<'a>
        requires { Proper (command_of command).shape }
        ensures asks { asks result ≡ by_header (Some (command_of command.entry)) }
        ensures formed { Formed result }
    {
        if command.cla != 0x00 {
            return Request::Other;
        }
        match command.ins {
            0x73 => Request::manage(command.p1, command.p2, command.body),
            0x75 => Request::transact(command.p1, command.p2, command.body),
            _ => Request::Other,
        }
    }

    // Reads what an APDU asks of the card.
    pub fn read(apdu: &'a [u8]) -> Request<'a>
        ensures asks { asks result ≡ request apdu.now }
        ensures formed { Formed result }
    {
        // A match: the toolchain finds no proof of `map_or` here, neither handed `by_header` as a function nor by a closure that calls it.
        match Apdu::read(apdu) {
            Some(command) => Request::by_header(command),
            None => Request::Malformed,
        }
    }
}
