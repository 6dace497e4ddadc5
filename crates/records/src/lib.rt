// The record file: an application that holds 8 records of 16 bytes.
#![tactic(auto)]

mod access;
mod file;
mod run;

pub use file::RecordFile;
