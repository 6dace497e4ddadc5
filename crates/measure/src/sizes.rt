// The bytes of the card's state.
use card::Powered;
use fares::FareCounter;
use manage::Pending;
use records::RecordFile;
use sealer::RealSealer;
use std::mem::size_of;
use tables::{Connection, Key, Master};

// One row of the table.
fn size(rt: &HostRuntime, name: &str, bytes: usize) -> anyhow::Result<()> {
    println!(rt; "| {name} | {bytes} |")?;
    Ok(())
}

// The whole state, and its parts.
pub fn print(rt: &HostRuntime) -> anyhow::Result<()> {
    println!(rt; "| state of the card | bytes |")?;
    println!(rt; "|---|---|")?;
    size(
        rt,
        "a powered card with a fare counter",
        size_of::<Powered<RealSealer, FareCounter>>(),
    )?;
    size(
        rt,
        "a powered card with a record file",
        size_of::<Powered<RealSealer, RecordFile>>(),
    )?;
    size(rt, "four keys", size_of::<[Option<Key>; 4]>())?;
    size(rt, "four masters", size_of::<[Option<Master>; 4]>())?;
    size(
        rt,
        "four connections with their sessions",
        size_of::<[Option<Connection>; 4]>(),
    )?;
    size(rt, "what is pending", size_of::<Pending>())?;
    size(rt, "the fare counter", size_of::<FareCounter>())?;
    size(rt, "the record file", size_of::<RecordFile>())
}
