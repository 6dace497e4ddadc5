// Appending a fare.
ghost use Rattle.std.specs.Prelude.{◌≡◌, ◌≤◌, [], length};
ghost use Rattle.apdu.specs.Reply.{reply};
ghost use Rattle.fares.specs.Counter.{fare_in, append as appending, counts as counting};
ghost use Rattle.fares.specs.Takings.{CountsFares};
ghost use Rattle.fares.specs.View.{fares_of};

use crate::counter::FareCounter;
use crate::fare::Fare;
use apdu::Status;

impl FareCounter {
    // A counter that holds no fare: from here on it counts, whatever commands it is given.
    #[tactic(auto, using(crate::proofs::Books::counts_fares))]
    pub fn new() -> FareCounter
        ensures blank { fares_of result ≡ [] }
        ensures counts { CountsFares counting (fares_of result) }
    {
        FareCounter {
            fares: [Fare {
                class: 0,
                amount: 0,
            }; FareCounter::ROOM],
            count: 0,
        }
    }

    // The fares that are held, the oldest first.
    pub fn held(&self) -> &[Fare]
        ensures fares { result.now ≡ fares_of self.now }
        ensures few { length result.now ≤ 32 }
    {
        &self.fares[..self.count]
    }

    // Appends the fare that the data names, if it names one and there is room. The answer is the reply's status word, done or
    // not, so it is no Result.
    pub(crate) fn append(&mut self, data: &[u8]) -> Status
        ensures says { reply [] result ≡ (appending (fares_of self.old) (fare_in «data».now)).reply }
        ensures holds { fares_of self.new ≡ (appending (fares_of self.old) (fare_in «data».now)).contents }
    {
        let Some(fare) = Fare::read(data) else {
            return Status::WrongData;
        };
        if self.count >= FareCounter::ROOM {
            return Status::NoRoom;
        }
        self.fares[self.count] = fare;
        self.count += 1;
        Status::Done
    }
}
