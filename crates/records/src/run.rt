// The record file as an application.
ghost use Rattle.std.specs.Prelude.{ℕ, List};
ghost use Rattle.records.specs.File.{carried, keeps};
ghost use Rattle.records.specs.View.{records_of};
ghost use Rattle.application.proofs.Bounds.{bounded_upon};
ghost use Rattle.records.specs.Replies.{within_carried};

use crate::file::RecordFile;
use apdu::{Apdu, Status, put_reply, put_status};
use application::Application;

// The instructions are bytes and no enum, which a match on the same two bytes would have to make.

// The instruction that reads a record.
const READ: u8 = 0xB2;
// The instruction that writes a record.
const WRITE: u8 = 0xDC;

impl Application for RecordFile {
    ghost Contents = { List (List ℕ) };

    ghost contents = { records_of };

    ghost acts = { keeps };

    ghost bounded = { bounded_upon carried within_carried };

    fn run(&mut self, command: &[u8], buffer: &mut [u8]) -> usize {
        let Some(apdu) = Apdu::read(command) else {
            return put_status(buffer, Status::WrongLength);
        };
        match apdu.ins {
            READ => match self.record(apdu.p1) {
                Some(record) => put_reply(buffer, record, Status::Done),
                None => put_status(buffer, Status::NoSuchRecord),
            },
            WRITE => put_status(buffer, self.write(apdu.p1, apdu.body.data())),
            _ => put_status(buffer, Status::UnknownInstruction),
        }
    }
}
