// A fare as bytes, as a command, and in words.
ghost use Rattle.std.specs.Prelude.{◌≡◌, ◌<◌, Some};
ghost use Rattle.apdu.specs.Writing.{command_bytes};
ghost use Rattle.fares.specs.Counter.{fare_in};
ghost use Rattle.fares.specs.Written.{fare_bytes, fare_words, appending};

use crate::fare::Fare;
use crate::run::APPEND;
use std::fmt;

impl Fare {
    // The fare that the data of a command names; `None` where it names none.
    // An Option and no TryFrom: there is one way to be none, and each caller has its own word for it.
    pub fn read(data: &[u8]) -> Option<Fare>
        ensures { result ≡ fare_in «data».now }
    {
        match data {
            [class @ 0..8, a, b, c, d] => Some(Fare {
                class: *class,
                amount: u32::from_be_bytes([*a, *b, *c, *d]),
            }),
            _ => None,
        }
    }

    // Class, and amount with its highest byte first: the data that names the fare, where its class is 7 at most.
    // By name and no `From`: two facts are promised of it.
    #[tactic(auto, using(byte_lists::proofs::Digits::octets_four))]
    pub fn bytes(self) -> [u8; 5]
        ensures bytes { result ≡ fare_bytes self }
        ensures names { self.class < 8 → fare_in result ≡ Some self }
    {
        let [a, b, c, d] = self.amount.to_be_bytes();
        [self.class, a, b, c, d]
    }

    // The command that has the fare counter append it.
    pub fn command(self) -> [u8; 10]
        ensures { result ≡ command_bytes (appending self) }
    {
        let [class, a, b, c, d] = self.bytes();
        [0x00, APPEND, 0x00, 0x00, 0x05, class, a, b, c, d]
    }
}

// As in "class 3, amount 300".
impl fmt::Display for Fare {
    ghost output = { λ f. Some (fare_words f) };

    fn fmt<W: fmt::Write>(&self, f: &mut fmt::Formatter<W>) -> fmt::Result {
        let Fare { class, amount } = *self;
        write!(f, "class {class}, amount {amount}")
    }
}
