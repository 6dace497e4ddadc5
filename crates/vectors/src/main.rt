// Runs the published vectors that standard input names, a line each, and says of each what was expected and what came out.
#![tactic(auto)]

mod algorithm;
mod fault;
mod readings;
mod report;
mod run;
mod seals;
mod vector;

use anyhow::ensure;
use report::Report;

fn all(rt: &HostRuntime) -> anyhow::Result<()> {
    let mut good = true;
    for text in rt.lines(rt.alloc()) {
        let text = text?;
        let report = Report::of(rt.alloc(), text.as_str())?;
        println!(rt; "{report}")?;
        good &= report.is_good();
    }
    ensure!(good, "a vector failed");
    Ok(())
}

fn main(rt: HostRuntime) -> anyhow::Result<()> {
    all(&rt)
}
