// Carrying out a whole object.
ghost use Rattle.std.specs.Prelude.{◌≡◌, ℕ, ◌≤◌, List, length};
ghost use Rattle.objects.specs.Asked.{asked_master, asked_connection, asked_start, asked_end};
ghost use Rattle.request.specs.View.{kind_of};
ghost use Rattle.law.specs.Request.{asked};
ghost use Rattle.law.specs.Hashes.{keyed};
ghost use Rattle.tables.specs.View.{tables_of, Keeps};
ghost use Rattle.associate.specs.Outcome.{outcome, done, sent};

use crate::answer::{with_object, without_object};
use crate::connection::establish_connection;
use crate::lent::Lent;
use crate::master::establish_master;
use crate::start::start;
use crate::terminate::terminate;
use apdu::Status;
use buffer::Buffer;
use objects::request::{ConnectionRequest, EndRequest, MasterRequest, StartRequest};
use request::Kind;
use tables::Tables;

// Carries out what the value of an object of this kind asks for, and answers the bytes of the reply, which are none for a
// termination. What is left in the area is free; it is a slice, since a host lends one of any length from 64 on.
#[tactic(auto, using(tables::proofs::Kept::all_kept))]
pub fn carry_out(
    tables: &mut Tables,
    kind: Kind,
    value: &[u8],
    random: &[u8; 32],
    area: &mut [u8],
) -> Result<Buffer, Status>
    requires { 64 ≤ length area.old }
    ensures outcome { outcome keyed (tables_of tables.old) random.now (asked (kind_of kind) value.now) ≡ done (tables_of tables.new) (sent result) }
    ensures answers { Keeps tables.old tables.new }
{
    let area = area.first_chunk_mut::<64>().unwrap();
    match kind {
        Kind::Discovery => Err(Status::WrongData),
        Kind::Master => carry_master(tables, value, random),
        Kind::Connection => carry_connection(tables, value, Lent { random, area }),
        Kind::Start => carry_start(tables, value, area),
        Kind::Terminate => carry_end(tables, value, area),
    }
}

// The four that follow are texts of their own: handed as a closure to `and_then`, what the steps make of the tables stays open in the proof.

// Establishes a master, as an object asks.
#[tactic(auto, using(tables::proofs::Kept::all_kept))]
fn carry_master(tables: &mut Tables, value: &[u8], random: &[u8; 32]) -> Result<Buffer, Status>
    ensures outcome { outcome keyed (tables_of tables.old) random.now (asked_master value.now) ≡ done (tables_of tables.new) (sent result) }
    ensures answers { Keeps tables.old tables.new }
{
    let Some(request) = MasterRequest::read(value) else {
        return Err(Status::WrongData);
    };
    with_object(establish_master(tables, &request, random))
}

// Establishes a connection, as an object asks.
#[tactic(auto, using(tables::proofs::Kept::all_kept))]
fn carry_connection(tables: &mut Tables, value: &[u8], lent: Lent<'_>) -> Result<Buffer, Status>
    ensures outcome { outcome keyed (tables_of tables.old) lent.entry.random.now (asked_connection value.now) ≡ done (tables_of tables.new) (sent result) }
    ensures answers { Keeps tables.old tables.new }
{
    let Some(request) = ConnectionRequest::read(value) else {
        return Err(Status::WrongData);
    };
    with_object(establish_connection(tables, &request, lent))
}

// Starts a session, as an object asks.
#[tactic(auto, using(tables::proofs::Kept::all_kept))]
fn carry_start(tables: &mut Tables, value: &[u8], area: &mut [u8; 64]) -> Result<Buffer, Status>
    ensures outcome { (random : List ℕ) → outcome keyed (tables_of tables.old) random (asked_start value.now) ≡ done (tables_of tables.new) (sent result) }
    ensures answers { Keeps tables.old tables.new }
{
    let Some(request) = StartRequest::read(value) else {
        return Err(Status::WrongData);
    };
    with_object(start(tables, &request, area))
}

// Terminates a master or a connection, as an object asks.
#[tactic(auto, using(crate::proofs::Outcomes::end_is, tables::proofs::Kept::all_kept))]
fn carry_end(tables: &mut Tables, value: &[u8], area: &mut [u8; 64]) -> Result<Buffer, Status>
    ensures outcome { (random : List ℕ) → outcome keyed (tables_of tables.old) random (asked_end value.now) ≡ done (tables_of tables.new) (sent result) }
    ensures answers { Keeps tables.old tables.new }
{
    let Some(request) = EndRequest::read(value) else {
        return Err(Status::WrongData);
    };
    without_object(terminate(tables, &request, area))
}
