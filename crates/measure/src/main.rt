// How many bytes the card's state has, and how long fares and associations take beside the sealings and the codes in them.
#![tactic(auto)]

mod association;
mod bench_card;
mod fare;
mod script;
mod sizes;
mod suite;
mod times;

use std::env;
use suite::{AES, TRIPLE};

// The number of bursts that the first argument names, if there is one.
fn bursts(rt: &HostRuntime) -> anyhow::Result<Option<u32>> {
    let word = env::args(rt)?.nth(1);
    Ok(word.map(|word| word.as_str().parse::<u32>()).transpose()?)
}

// The table of times, each the best of so many bursts.
fn print_times(rt: &HostRuntime, bursts: u32) -> anyhow::Result<()> {
    println!(rt; "| ns | the card | what it contains | ratio |")?;
    println!(rt; "|---|---|---|---|")?;
    fare::measure(rt, &AES, bursts)?.print(
        rt,
        "a fare, AES/CMAC: one opening and one sealing",
        fare::BURST,
    )?;
    fare::measure(rt, &TRIPLE, bursts)?.print(
        rt,
        "a fare, three-key/CRC-32: one opening and one sealing",
        fare::BURST,
    )?;
    association::measure(rt, bursts)?.print(
        rt,
        "an association: five HMACs with four key set-ups",
        association::BURST,
    )
}

fn all(rt: &HostRuntime) -> anyhow::Result<()> {
    let Some(bursts) = bursts(rt)? else {
        println!(rt;
            "measure BURSTS: the card's state in bytes, and its times, the best of so many bursts"
        )?;
        return Ok(());
    };
    sizes::print(rt)?;
    println!(rt; "")?;
    print_times(rt, bursts)
}

fn main(rt: HostRuntime) -> anyhow::Result<()> {
    all(&rt)
}
