// Scripts of calls on two cards: one answer line for each call. The scripts are the files that the arguments name, or
// standard input where there is none.
#![tactic(auto)]

mod cards;
mod shown;

use anyhow::anyhow;
use cards::run_section;
use script::{Script, Section};
use shown::AnswerLine;
use std::io::Read;
use std::{env, fs};

// Runs a section, and prints its answers.
fn answer_section(rt: &HostRuntime, section: &Section) -> anyhow::Result<()> {
    let answers = run_section(rt.alloc(), section)?;
    println!(rt; "new")?;
    for ((step, left), right) in section
        .steps
        .iter()
        .zip(answers.left.iter())
        .zip(answers.right.iter())
    {
        let line = AnswerLine { step, left, right };
        println!(rt; "{line}")?;
    }
    Ok(())
}

// Runs a script, and prints its answers. No card takes what comes before the first section.
fn answer_script(rt: &HostRuntime, name: &str, text: &str) -> anyhow::Result<()> {
    let script = Script::read(rt.alloc(), text).map_err(|error| anyhow!("{name}: {error}"))?;
    for _ in script.before.iter() {
        println!(rt; "not taken")?;
    }
    for section in script.sections.iter() {
        answer_section(rt, section)?;
    }
    Ok(())
}

// Runs a script of standard input.
fn answer_input(rt: &HostRuntime) -> anyhow::Result<()> {
    let mut text = String::new(rt.alloc());
    rt.stdin().read_to_string(&mut text)?;
    answer_script(rt, "standard input", text.as_str())
}

// Runs a script of a file, under a heading.
fn answer_file(rt: &HostRuntime, path: &str) -> anyhow::Result<()> {
    let text = fs::read_to_string(rt, path)?;
    println!(rt; "# {path}")?;
    answer_script(rt, path, text.as_str())
}

// Runs every script.
fn console(rt: &HostRuntime) -> anyhow::Result<()> {
    let mut paths = env::args(rt)?.skip(1).peekable();
    if paths.peek().is_none() {
        return answer_input(rt);
    }
    for path in paths {
        answer_file(rt, path.as_str())?;
    }
    Ok(())
}

fn main(rt: HostRuntime) -> anyhow::Result<()> {
    console(&rt)
}
