// A whole script, from one setup of new cards to the next.
use crate::line::{Line, LineError, Step};
use crate::setup::Setup;
use std::alloc::{AllocError, AllocFailed, Global};
use std::fmt;

// Two new cards, and the calls on them.
#[derive(Drop)]
pub struct Section {
    pub setup: Setup,
    pub steps: Vec<Step>,
}

// A script: the calls before there are any cards, and its sections.
#[derive(Drop)]
pub struct Script {
    pub before: Vec<Step>,
    pub sections: Vec<Section>,
}

// Why a script was not read.
#[derive(Clone, Copy, PartialEq, Eq, Debug)]
pub enum ScriptError {
    // The line of this number, from 1, is not understood.
    Line(usize),
    // There is no memory for it.
    Memory,
}

impl From<AllocError> for ScriptError {
    fn from(_error: AllocError) -> ScriptError {
        ScriptError::Memory
    }
}

impl<T: Drop> From<AllocFailed<T>> for ScriptError {
    fn from(_error: AllocFailed<T>) -> ScriptError {
        ScriptError::Memory
    }
}

impl fmt::Display for ScriptError {
    fn fmt<W: fmt::Write>(&self, f: &mut fmt::Formatter<W>) -> fmt::Result {
        match *self {
            ScriptError::Line(number) => write!(f, "line {number} is not understood"),
            ScriptError::Memory => write!(f, "no memory for the script"),
        }
    }
}

impl LineError {
    // The script's error, where the line of this number has this one.
    fn at(self, number: usize) -> ScriptError {
        match self {
            LineError::Unknown => ScriptError::Line(number),
            LineError::Memory => ScriptError::Memory,
        }
    }
}

impl Script {
    // Adds a call to the last section, or to the calls before any.
    fn add(&mut self, step: Step) -> Result<(), ScriptError> {
        match self.sections.last_mut() {
            Some(section) => section.steps.push(step)?,
            None => self.before.push(step)?,
        }
        Ok(())
    }

    // Reads a script.
    pub fn read(heap: Global, text: &str) -> Result<Script, ScriptError> {
        let mut script = Script {
            before: Vec::new(heap),
            sections: Vec::new(heap),
        };
        for (i, line) in text.lines().enumerate() {
            match Line::read(heap, line).map_err(|error| error.at(i.saturating_add(1)))? {
                Line::Nothing => {}
                Line::New(setup) => script.sections.push(Section {
                    setup,
                    steps: Vec::new(heap),
                })?,
                Line::Call(step) => script.add(step)?,
            }
        }
        Ok(script)
    }
}

#[cfg(test)]
mod tests {
    use super::*;
    use std::test::Fail;

    // The number of the line that is not understood.
    fn wrong_line(heap: Global, text: &str) -> Option<usize> {
        match Script::read(heap, text) {
            Err(ScriptError::Line(number)) => Some(number),
            _ => None,
        }
    }

    #[test]
    fn sections_begin_at_new(rt: HostRuntime) -> Result<(), Fail> {
        let text =
            "on\n# none yet\n\nnew fares records required real\nload -\non\nnew fares fares open bench\n";
        let Ok(script) = Script::read(rt.alloc(), text) else {
            return Err("refused".into());
        };
        assert!(rt; script.before.len() == 1);
        assert!(rt; script.sections.len() == 2);
        assert!(rt; script.sections.first().ok_or("none")?.steps.len() == 2);
        Ok(())
    }

    #[test]
    fn wrong_lines_are_numbered(rt: HostRuntime) {
        let heap = rt.alloc();
        assert!(rt; wrong_line(heap, "# good\n\ncommand 00 - 258 64\noff") == None);
        assert!(rt; wrong_line(heap, "on\noff\nof\n") == Some(3));
        assert!(rt; wrong_line(heap, "new fares cash open real") == Some(1));
        assert!(rt; wrong_line(heap, "load 0a") == Some(1));
        assert!(rt; wrong_line(heap, "on\ncommand 00 - 258 064") == Some(2));
        assert!(rt; wrong_line(heap, "on now") == Some(1));
    }
}
