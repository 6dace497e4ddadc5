// A card that is off.
ghost use Rattle.std.specs.Prelude.{◌≡◌};
ghost use Rattle.law.specs.Hashes.{keyed};
ghost use Rattle.law.specs.Calls.{load, power_on, powered, loaded};
ghost use Rattle.law.specs.Step.{step, new};
ghost use Rattle.card.specs.Refusals.{load_number};
ghost use Rattle.card.specs.View.{off_state, on_state, outcome};

use crate::load::load;
use crate::powered::Powered;
use crate::refusal::LoadRefusal;
use application::Application;
use manage::{Core, Pending};
use sealing::Sealer;
use tables::Tables;
use transact::Parts;

// A card that is off takes only load and power on.
#[derive(Drop)]
pub struct Off<S, A> {
    pub(crate) parts: Parts<S, A>,
}

impl<S: Sealer, A: Application> Off<S, A> {
    // A new card is blank and off, and set to require the channel or not.
    pub fn new(sealer: S, application: A, required: bool) -> Off<S, A>
        ensures { off_state A.contents result ≡ new required (A.contents application) }
    {
        let core = Core {
            tables: Tables::new(),
            pending: Pending::Nothing,
            failures: 0,
            required,
        };
        Off {
            parts: Parts {
                sealer,
                application,
                core,
            },
        }
    }

    // Loads the key of a text.
    pub fn load(&mut self, text: &[u8]) -> Result<(), LoadRefusal>
        ensures { step keyed S.seals A.acts (off_state A.contents self.old) (load text.now) ≡ outcome (off_state A.contents self.new) (loaded (load_number result)) }
    {
        load(&mut self.parts.core, text)
    }

    // Turns the power on.
    #[tactic(auto, using(tables::proofs::Kept::all_kept))]
    pub fn power_on(self) -> Powered<S, A>
        ensures { step keyed S.seals A.acts (off_state A.contents self) power_on ≡ outcome (on_state A.contents result) powered }
    {
        let Off { parts } = self;
        Powered { parts }
    }
}
