// The objects that ask for something, one function for each kind.
ghost use Rattle.std.specs.Prelude.{◌≡◌, ◌≤◌, [], ◌∷◌, ◌++◌, length, IfOk};
ghost use Rattle.replies.specs.Reply.{tagged};
ghost use Rattle.terminal.specs.Macs.{mac_of};

use crate::connection::Connection;
use crate::master::Master;
use crate::object::{with_object, wrapped};
use crate::offer::Offer;
use objects::tag;
use std::alloc::{AllocError, Global};

// The key mechanism that a terminal has, and the only one there is.
const SHARED_KEYS: u8 = 0x01;

// Asks for a master under the key of this reference. Its bound is a clause here: all other values are arrays.
pub fn master_object(heap: Global, reference: &[u8]) -> Result<Vec<u8>, AllocError>
    requires { length reference.now ≤ 68 }
    ensures { IfOk result (λ v. v.items ≡ tagged 0x73 (tagged 0x81 reference.now ++ tagged 0x82 (0x01 ∷ []))) }
{
    let inside = with_object(Vec::new(heap), tag::REFERENCE, reference)?;
    let inside = with_object(inside, tag::KEY_MECHANISMS, &[SHARED_KEYS])?;
    wrapped(heap, inside.as_slice())
}

// Asks for a connection under this master, with what the terminal offers.
pub fn connection_object(
    heap: Global,
    master: &Master,
    offer: &Offer,
) -> Result<Vec<u8>, AllocError>
    ensures { IfOk result (λ v. v.items ≡ tagged 0x73 (tagged 0x83 master.now.id ++ tagged 0x85 offer.now.nonce ++ tagged 0x86 (offer.now.ciphers ∷ []) ++ tagged 0x87 (offer.now.mechanisms ∷ []))) }
{
    let inside = with_object(Vec::new(heap), tag::MASTER, master.id())?;
    let inside = with_object(inside, tag::TERMINAL_NONCE, &offer.nonce)?;
    let inside = with_object(inside, tag::TERMINAL_CIPHERS, &[offer.ciphers])?;
    let inside = with_object(inside, tag::TERMINAL_MECHANISMS, &[offer.mechanisms])?;
    wrapped(heap, inside.as_slice())
}

// Asks to start the session of a connection, with containers of this size.
pub fn start_object(
    heap: Global,
    connection: &Connection,
    container: u8,
) -> Result<Vec<u8>, AllocError>
    ensures { IfOk result (λ v. v.items ≡ tagged 0x73 (tagged 0x88 connection.now.id ++ tagged 0x90 (container ∷ []) ++ tagged 0x8D (mac_of connection.now.secrets.mac (connection.now.id ++ container ∷ [])))) }
{
    let inside = with_object(Vec::new(heap), tag::CONNECTION, connection.id())?;
    let inside = with_object(inside, tag::CONTAINER, &[container])?;
    let inside = with_object(inside, tag::START_MAC, &connection.start_mac(container))?;
    wrapped(heap, inside.as_slice())
}

// Asks to terminate what an object of this tag names.
fn end_object(heap: Global, tag: u8, id: &[u8; 16], mac: &[u8; 16]) -> Result<Vec<u8>, AllocError>
    ensures { IfOk result (λ v. v.items ≡ tagged 0x73 (tagged tag id.now ++ tagged 0x8E mac.now)) }
{
    let inside = with_object(Vec::new(heap), tag, id)?;
    let inside = with_object(inside, tag::END_MAC, mac)?;
    wrapped(heap, inside.as_slice())
}

// Asks to terminate a master.
pub fn master_end_object(heap: Global, master: &Master) -> Result<Vec<u8>, AllocError>
    ensures { IfOk result (λ v. v.items ≡ tagged 0x73 (tagged 0x83 master.now.id ++ tagged 0x8E (mac_of master.now.secret master.now.id))) }
{
    end_object(heap, tag::MASTER, master.id(), &master.end_mac())
}

// Asks to terminate a connection.
pub fn connection_end_object(heap: Global, connection: &Connection) -> Result<Vec<u8>, AllocError>
    ensures { IfOk result (λ v. v.items ≡ tagged 0x73 (tagged 0x88 connection.now.id ++ tagged 0x8E (mac_of connection.now.secrets.mac connection.now.id))) }
{
    end_object(
        heap,
        tag::CONNECTION,
        connection.id(),
        &connection.end_mac(),
    )
}
