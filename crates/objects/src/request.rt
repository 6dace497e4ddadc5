//! The requests inside an object, each with its values by name. They are read by name, not by `TryFrom`: nothing but the
//! layout can be wrong, and `None` says so.
ghost use Rattle.std.specs.Prelude.{◌≡◌, ◌≤◌, length, IfSome};
ghost use Rattle.objects.specs.Asked.{asked_master, asked_connection, asked_start, asked_end, seen_master, seen_connection, seen_start, seen_end};

use crate::read::{Field, Reader};
use crate::tag;

/// The least size of a container.
pub const LEAST_CONTAINER: u8 = 10;

const REFERENCE: Field = Field {
    tag: tag::REFERENCE,
    least: 22,
    most: 68,
};

/// Asks for a master under the key of this reference.
#[derive(Clone, Copy)]
pub struct MasterRequest<'a> {
    pub reference: &'a [u8],
    pub mechanisms: u8,
}

/// Asks for a connection under this master.
#[derive(Clone, Copy)]
pub struct ConnectionRequest<'a> {
    pub master: &'a [u8; 16],
    pub nonce: &'a [u8; 16],
    pub ciphers: u8,
    pub mechanisms: u8,
}

/// Asks to start the session of this connection, with blocks of up to `container` bytes.
#[derive(Clone, Copy)]
pub struct StartRequest<'a> {
    pub connection: &'a [u8; 16],
    pub container: u8,
    pub mac: &'a [u8; 16],
}

/// What a request names, by its identifier.
#[derive(Clone, Copy)]
pub enum Named<'a> {
    Master(&'a [u8; 16]),
    Connection(&'a [u8; 16]),
}

/// Asks to terminate a master or a connection.
#[derive(Clone, Copy)]
pub struct EndRequest<'a> {
    pub named: Named<'a>,
    pub mac: &'a [u8; 16],
}

impl<'a> MasterRequest<'a> {
    /// Reads the objects of this request.
    pub fn read(value: &'a [u8]) -> Option<MasterRequest<'a>>
        ensures asks { seen_master result ≡ asked_master value.now }
        ensures sizes { IfSome result (λ q. (22 ≤ length q.reference.now) × (length q.reference.now ≤ 68)) }
    {
        let mut reader = Reader::new(value);
        let reference = reader.take(REFERENCE)?;
        let &[mechanisms] = reader.take_array::<1>(tag::KEY_MECHANISMS)?;
        reader.end()?;
        Some(MasterRequest {
            reference,
            mechanisms,
        })
    }
}

impl<'a> ConnectionRequest<'a> {
    /// Reads the objects of this request.
    pub fn read(value: &'a [u8]) -> Option<ConnectionRequest<'a>>
        ensures asks { seen_connection result ≡ asked_connection value.now }
    {
        let mut reader = Reader::new(value);
        let master = reader.take_array(tag::MASTER)?;
        let nonce = reader.take_array(tag::TERMINAL_NONCE)?;
        let &[ciphers] = reader.take_array::<1>(tag::TERMINAL_CIPHERS)?;
        let &[mechanisms] = reader.take_array::<1>(tag::TERMINAL_MECHANISMS)?;
        reader.end()?;
        Some(ConnectionRequest {
            master,
            nonce,
            ciphers,
            mechanisms,
        })
    }
}

impl<'a> StartRequest<'a> {
    /// Reads the objects of this request.
    pub fn read(value: &'a [u8]) -> Option<StartRequest<'a>>
        ensures asks { seen_start result ≡ asked_start value.now }
        ensures sizes { IfSome result (λ q. 10 ≤ q.container) }
    {
        let mut reader = Reader::new(value);
        let connection = reader.take_array(tag::CONNECTION)?;
        let &[container] = reader.take_array::<1>(tag::CONTAINER)?;
        let mac = reader.take_array(tag::START_MAC)?;
        reader.end()?;
        (container >= LEAST_CONTAINER).then_some(StartRequest {
            connection,
            container,
            mac,
        })
    }
}

impl<'a> EndRequest<'a> {
    /// Reads the objects of this request.
    pub fn read(value: &'a [u8]) -> Option<EndRequest<'a>>
        ensures asks { seen_end result ≡ asked_end value.now }
    {
        let mut reader = Reader::new(value);
        // No `map`: the other arm leaves by `?` itself.
        let named = match reader.take_array(tag::MASTER) {
            Some(id) => Named::Master(id),
            None => Named::Connection(reader.take_array(tag::CONNECTION)?),
        };
        let mac = reader.take_array(tag::END_MAC)?;
        reader.end()?;
        Some(EndRequest { named, mac })
    }
}
