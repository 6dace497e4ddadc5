// The key's load, from the file that the first argument names.
use crate::cards::Cards;
use anyhow::Context;
use personalise::{KeyLoad, read};
use show::SpacedPairs;
use std::{env, fs};

// The text of the load; day reads its own by the same two calls.
fn text(rt: &HostRuntime) -> anyhow::Result<Vec<u8>> {
    let path = env::args(rt)?
        .nth(1)
        .context("name the file of a key's load")?;
    Ok(fs::read(rt, path.as_str())?)
}

// Shows what a load says of a key.
fn show_limits(rt: &HostRuntime, load: &KeyLoad) -> anyhow::Result<()> {
    let masters = load.masters();
    let connections = load.connections();
    let transactions = load.transactions();
    println!(rt; "  reference {}", SpacedPairs(load.reference()))?;
    println!(rt;
        "  {masters} masters, {connections} connections of each, {transactions} commands of each connection"
    )?;
    Ok(())
}

// Loads the key into both cards; what the terminal knows of it.
pub fn load(cards: &mut Cards<'_>) -> anyhow::Result<KeyLoad> {
    let text = text(cards.rt)?;
    let load = read(text.as_slice())?;
    println!(cards.rt;
        "The key is loaded into both cards, left a fare counter, right a record file"
    )?;
    show_limits(cards.rt, &load)?;
    let answer = cards.load(text.as_slice())?;
    println!(cards.rt; "  loaded: {}", answer.err().map_or(0, u8::from))?;
    Ok(load)
}
