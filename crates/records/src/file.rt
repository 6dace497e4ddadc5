// What a record file holds.

// 8 records of 16 bytes.
#[derive(Clone, Copy, PartialEq, Eq, Debug)]
pub struct RecordFile {
    pub(crate) records: [[u8; 16]; 8],
}
