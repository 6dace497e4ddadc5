// Establishing a master.
ghost use Rattle.std.specs.Prelude.{◌≡◌};
ghost use Rattle.law.specs.Hashes.{keyed};
ghost use Rattle.tables.specs.View.{tables_of};
ghost use Rattle.associate.specs.Outcome.{done, replied, Kept};
ghost use Rattle.associate.specs.Steps.{master_steps};

use crate::check::{agreed, below, unused};
use crate::derive::new_master;
use apdu::Status;
use objects::request::MasterRequest;
use replies::reply::{MasterReply, Reply};
use tables::{Key, Master, Tables};

// Establishes a master under the key of a reference. A key that is asked for more than its limit goes, with all that rests
// on it.
pub fn establish_master(
    tables: &mut Tables,
    request: &MasterRequest<'_>,
    random: &[u8; 32],
) -> Result<Reply, Status>
    ensures steps { master_steps keyed (tables_of tables.old) random.now request.now.reference.now request.now.mechanisms ≡ done (tables_of tables.new) (replied result) }
    ensures answers { Kept tables.old tables.new }
{
    let Some(key) = tables.named::<Key>(request.reference) else {
        return Err(Status::NotPossible);
    };
    let Some(()) = agreed(&key.item, request.mechanisms) else {
        return Err(Status::NotPossible);
    };
    let Some(()) = below(
        u32::from(key.item.count),
        u32::from(key.item.load.masters()),
    ) else {
        tables.remove_key(key.row);
        return Err(Status::LimitPassed);
    };
    let Some(row) = tables.free::<Master>() else {
        return Err(Status::NoRoom);
    };
    let Some(()) = unused::<Master>(tables, random) else {
        return Err(Status::NotPossible);
    };
    let master = new_master(&key, random);
    let id = master.id;
    tables.enter_master(key, row, master);
    Ok(Reply::Master(MasterReply { id }))
}
