// The fare counter as an application.
ghost use Rattle.std.specs.Prelude.{List};
ghost use Rattle.fares.specs.declared.fare.Fare.{Fare as FareOf};
ghost use Rattle.fares.specs.Counter.{carried, counts};
ghost use Rattle.fares.specs.View.{fares_of};
ghost use Rattle.application.proofs.Bounds.{bounded_upon};
ghost use Rattle.fares.specs.Replies.{within_carried};

use crate::counter::FareCounter;
use apdu::{Apdu, Status, put_reply, put_status};
use application::Application;

// The instructions are bytes and no enum, which a match on the same two bytes would have to make.

// The instruction that appends a fare.
pub(crate) const APPEND: u8 = 0xE2;
// The instruction that asks for the sum.
const TOTAL: u8 = 0xCA;

impl Application for FareCounter {
    ghost Contents = { List FareOf };

    ghost contents = { fares_of };

    ghost acts = { counts };

    ghost bounded = { bounded_upon carried within_carried };

    #[tactic(auto, using(byte_lists::proofs::Digits::octets_eight))]
    fn run(&mut self, command: &[u8], buffer: &mut [u8]) -> usize {
        let Some(apdu) = Apdu::read(command) else {
            return put_status(buffer, Status::WrongLength);
        };
        match apdu.ins {
            APPEND => put_status(buffer, self.append(apdu.body.data())),
            TOTAL => put_reply(buffer, &self.total().to_be_bytes(), Status::Done),
            _ => put_status(buffer, Status::UnknownInstruction),
        }
    }
}
