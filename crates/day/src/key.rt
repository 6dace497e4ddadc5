// The key's load: from the file that the first argument names, and two that are refused.
use anyhow::Context;
use personalise::{KeyLoad, Refusal, read};
use show::SpacedPairs;
use std::{env, fs};

// A load whose limit of masters is empty, and one whose limit is above the top.
const UNSET: &[u8] =
    b"ref=000102030405060708090A0B0C0D0E0F101112131415\nkey=202122232425262728292A2B2C2D2E2F303132333435363738393A3B3C3D3E3F\nweak=0\nmasters=\nconnections=100\ntransactions=1\n";

const ABOVE: &[u8] =
    b"ref=000102030405060708090A0B0C0D0E0F101112131415\nkey=202122232425262728292A2B2C2D2E2F303132333435363738393A3B3C3D3E3F\nweak=0\nmasters=65536\nconnections=100\ntransactions=1\n";

// What a text loads, or why it is refused.
fn show_load(rt: &HostRuntime, text: &[u8]) -> anyhow::Result<()> {
    match read(text) {
        Ok(load) => show_limits(rt, &load),
        Err(refusal) => show_refusal(rt, refusal),
    }
}

fn show_limits(rt: &HostRuntime, load: &KeyLoad) -> anyhow::Result<()> {
    println!(rt; "  reference    {}", SpacedPairs(load.reference()))?;
    println!(rt; "  masters      {}", load.masters())?;
    println!(rt; "  connections  {}", load.connections())?;
    println!(rt; "  transactions {}", load.transactions())?;
    Ok(())
}

fn show_refusal(rt: &HostRuntime, refusal: Refusal) -> anyhow::Result<()> {
    println!(rt; "  refused with {}: {refusal}", u8::from(refusal))?;
    Ok(())
}

// Loads the key, and shows its limits.
pub fn show_key(rt: &HostRuntime) -> anyhow::Result<()> {
    let path = env::args(rt)?
        .nth(1)
        .context("name the file of a key's load")?;
    let text = fs::read(rt, path.as_str())?;
    show_load(rt, text.as_slice())?;
    println!(rt; "  with nothing behind masters=")?;
    show_load(rt, UNSET)?;
    println!(rt; "  with masters=65536")?;
    show_load(rt, ABOVE)
}
