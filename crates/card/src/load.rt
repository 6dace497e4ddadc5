// Loading a key.
ghost use Rattle.std.specs.Prelude.{◌≡◌, false};
ghost use Rattle.personalise.specs.Load.{loading};
ghost use Rattle.law.specs.Calls.{loaded};
ghost use Rattle.law.specs.Step.{does, loads};
ghost use Rattle.tables.specs.View.{Keeps};
ghost use Rattle.manage.specs.View.{core_as};
ghost use Rattle.card.specs.Refusals.{load_number};

use crate::refusal::LoadRefusal;
use manage::Core;
use personalise::read;
use tables::Key;

// Loads the key of a text: 1 malformed, 2 limit unset, 3 reference already held, 4 no key row, the first of these in this
// order, and nothing is stored; else the key takes the smallest free row.
#[tactic(auto, using(tables::proofs::Kept::all_kept))]
pub(crate) fn load(core: &mut Core, text: &[u8]) -> Result<(), LoadRefusal>
    ensures said { loads (core_as false core.old) (loading text.now) ≡ does (core_as false core.new) (loaded (load_number result)) }
    ensures answers { Keeps core.old.tables core.new.tables }
{
    let key = read(text)?;
    if core.tables.named::<Key>(key.reference()).is_some() {
        return Err(LoadRefusal::AlreadyHeld);
    }
    let row = core.tables.free::<Key>().ok_or(LoadRefusal::NoRow)?;
    core.tables.enter_key(row, key);
    Ok(())
}
