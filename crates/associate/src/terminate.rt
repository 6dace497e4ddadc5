// Terminating a master or a connection.
ghost use Rattle.std.specs.Prelude.{◌≡◌};
ghost use Rattle.law.specs.Hashes.{keyed};
ghost use Rattle.tables.specs.View.{tables_of};
ghost use Rattle.associate.specs.Outcome.{done, ended, Kept};
ghost use Rattle.associate.specs.Steps.{end_master_steps, end_connection_steps, end_steps};

use crate::mac::end_mac;
use apdu::Status;
use objects::request::{EndRequest, Named};
use tables::{Connection, Master, Tables};

// Terminates what a request names. What is not there has nothing to end.
pub fn terminate(
    tables: &mut Tables,
    request: &EndRequest<'_>,
    area: &mut [u8; 64],
) -> Result<(), Status>
    ensures steps { end_steps keyed (tables_of tables.old) request.now.named request.now.mac.now ≡ done (tables_of tables.new) (ended result) }
    ensures answers { Kept tables.old tables.new }
{
    let EndRequest { named, mac } = *request;
    match named {
        Named::Master(id) => end_master(tables, id, mac, area),
        Named::Connection(id) => end_connection(tables, id, mac, area),
    }
}

// Ends a master, and with it its connections. (Ending a connection is a text of its own: a trait with the key, the
// identifier and the removal of each would be longer than the two.)
fn end_master(tables: &mut Tables, id: &[u8], mac: &[u8], area: &mut [u8; 64]) -> Result<(), Status>
    ensures steps { end_master_steps keyed (tables_of tables.old) id.now mac.now ≡ done (tables_of tables.new) (ended result) }
    ensures answers { Kept tables.old tables.new }
{
    let Some(master) = tables.named::<Master>(id) else {
        return Ok(());
    };
    let Some(()) = end_mac(&master.item.secret, &master.item.id, mac, area) else {
        return Err(Status::NotAuthentic);
    };
    tables.remove_master(master.row);
    Ok(())
}

// Ends a connection.
fn end_connection(
    tables: &mut Tables,
    id: &[u8],
    mac: &[u8],
    area: &mut [u8; 64],
) -> Result<(), Status>
    ensures steps { end_connection_steps keyed (tables_of tables.old) id.now mac.now ≡ done (tables_of tables.new) (ended result) }
    ensures answers { Kept tables.old tables.new }
{
    let Some(connection) = tables.named::<Connection>(id) else {
        return Ok(());
    };
    let Some(()) = end_mac(&connection.item.mac, &connection.item.id, mac, area) else {
        return Err(Status::NotAuthentic);
    };
    tables.remove_connection(connection.row);
    Ok(())
}
