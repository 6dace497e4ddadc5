// The sum of the fares.
ghost use Rattle.std.specs.Prelude.{◌≡◌};
ghost use Rattle.fares.specs.Counter.{takings};
ghost use Rattle.fares.specs.View.{fares_of};

use crate::counter::FareCounter;

impl FareCounter {
    // The sum of the amounts of the fares that are held.
    pub fn total(&self) -> u64
        ensures { result ≡ takings (fares_of self.now) }
    {
        let fares = self.held();
        fares.iter().map(|fare| u64::from(fare.amount)).sum()
    }
}
