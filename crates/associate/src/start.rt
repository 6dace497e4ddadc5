// Starting a connection's session.
ghost use Rattle.std.specs.Prelude.{◌≡◌, ◌*◌};
ghost use Rattle.law.specs.Hashes.{keyed};
ghost use Rattle.tables.specs.View.{tables_of};
ghost use Rattle.associate.specs.Outcome.{done, replied, Kept};
ghost use Rattle.associate.specs.Steps.{start_steps};

use crate::check::fresh;
use crate::mac::start_mac;
use apdu::Status;
use objects::request::StartRequest;
use replies::reply::Reply;
use session::Session;
use table_rows::Row;
use tables::{Connection, Tables};

// Starts the session of the connection of an identifier.
pub fn start(
    tables: &mut Tables,
    request: &StartRequest<'_>,
    area: &mut [u8; 64],
) -> Result<Reply, Status>
    ensures steps { start_steps keyed (tables_of tables.old) request.now.connection.now request.now.container request.now.mac.now ≡ done (tables_of tables.new) (replied result) }
    ensures answers { Kept tables.old tables.new }
{
    let StartRequest {
        connection: id,
        container,
        mac,
    } = *request;
    let Some(connection) = tables.named::<Connection>(id) else {
        return Err(Status::NoSuchIdentifier);
    };
    let Some(()) = fresh(&connection.item) else {
        return Err(Status::NotNow);
    };
    let Some(()) = start_mac(&connection.item.mac, id, container, mac, area) else {
        return Err(Status::NotAuthentic);
    };
    tables.start(connection, Session::started(container));
    Ok(Reply::Session(session_byte(connection.row)))
}

// The byte of the session in a row: row × 64.
fn session_byte(row: Row) -> u8
    ensures { result ≡ row * 64 }
{
    u8::from(row) * 64
}
