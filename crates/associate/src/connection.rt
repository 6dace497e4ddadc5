// Establishing a connection.
ghost use Rattle.std.specs.Prelude.{◌≡◌};
ghost use Rattle.law.specs.Hashes.{keyed};
ghost use Rattle.tables.specs.View.{tables_of};
ghost use Rattle.associate.specs.Outcome.{done, replied, Kept};
ghost use Rattle.associate.specs.Steps.{connection_steps};

use crate::check::{below, unused};
use crate::confirm::confirmed_connection;
use crate::lent::Lent;
use crate::suite::common;
use apdu::Status;
use objects::request::ConnectionRequest;
use replies::reply::Reply;
use tables::{Connection, Master, Tables};

// Establishes a connection under the master of an identifier. A master that is asked for more than its limit goes, with all
// that rests on it.
pub fn establish_connection(
    tables: &mut Tables,
    request: &ConnectionRequest<'_>,
    lent: Lent<'_>,
) -> Result<Reply, Status>
    ensures steps { connection_steps keyed (tables_of tables.old) lent.entry.random.now request.now.master.now request.now.nonce.now request.now.ciphers request.now.mechanisms ≡ done (tables_of tables.new) (replied result) }
    ensures answers { Kept tables.old tables.new }
{
    let id = request.master;
    let Some(master) = tables.named::<Master>(id) else {
        return Err(Status::NoSuchIdentifier);
    };
    let Some(suite) = common(request.ciphers, request.mechanisms) else {
        return Err(Status::NotPossible);
    };
    let Some(()) = below(master.item.count, tables.connections_limit(&master.item)) else {
        tables.remove_master(master.row);
        return Err(Status::LimitPassed);
    };
    let Some(row) = tables.free::<Connection>() else {
        return Err(Status::NoRoom);
    };
    let Some(()) = unused::<Connection>(tables, lent.random) else {
        return Err(Status::NotPossible);
    };
    let (connection, reply) = confirmed_connection(&master, suite, request, lent);
    tables.enter_connection(master, row, connection);
    Ok(reply)
}
