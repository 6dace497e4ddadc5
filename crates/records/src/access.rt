// Reading and writing records.
ghost use Rattle.std.specs.Prelude.{◌≡◌, ◌<◌, [], IfSome};
ghost use Rattle.std.specs.Option.{option_map};
ghost use Rattle.apdu.specs.Reply.{reply};
ghost use Rattle.records.specs.File.{blank, place as placed, record_at, write_at, keeps};
ghost use Rattle.records.specs.Kept.{KeepsRecords};
ghost use Rattle.records.specs.View.{records_of};

use crate::file::RecordFile;
use apdu::Status;

// The place of the record with this number; `None` where there is no such record.
fn place(number: u8) -> Option<usize>
    ensures place { result ≡ placed number }
    ensures within { IfSome result (λ i. i < 8) }
{
    match number {
        1..=8 => Some(usize::from(number) - 1),
        _ => None,
    }
}

impl RecordFile {
    // A file of zero bytes: from here on it keeps what is written, whatever commands it is given.
    #[tactic(auto, using(crate::proofs::Line::keeps_records))]
    pub fn new() -> RecordFile
        ensures blank { records_of result ≡ blank }
        ensures keeps { KeepsRecords keeps (records_of result) }
    {
        RecordFile {
            records: [[0; 16]; 8],
        }
    }

    // The record with this number. By `first_chunk`, which says that there are 16 bytes; the array itself does not.
    pub(crate) fn record(&self, number: u8) -> Option<&[u8; 16]>
        ensures { option_map (λ r. r.now) result ≡ option_map (record_at (records_of self.now)) (placed number) }
    {
        self.records[place(number)?].first_chunk()
    }

    // Writes the data to the record with this number. The answer is the reply's status word, done or not, so it is no Result.
    pub(crate) fn write(&mut self, number: u8, data: &[u8]) -> Status
        ensures says { reply [] result ≡ (write_at (records_of self.old) (placed number) «data».now).reply }
        ensures holds { records_of self.new ≡ (write_at (records_of self.old) (placed number) «data».now).contents }
    {
        let Some(place) = place(number) else {
            return Status::NoSuchRecord;
        };
        let Some(record) = data.as_array() else {
            return Status::WrongLength;
        };
        self.records[place] = *record;
        Status::Done
    }
}
