// The answer line of a call.
use crate::cards::FILL;
use pair::{Answer, Done};
use script::{Step, all_are};
use show::JoinedPairs;
use std::fmt;

// Whether a byte of the reply buffer was touched behind the reply, or at all where there is none.
fn touches_buffer(done: &Done) -> bool {
    let from = match done.answer {
        Answer::Replied(Ok(n)) => n,
        _ => 0,
    };
    let behind = done.buffer.as_slice().get(from..);
    behind.is_none_or(|behind| !all_are(behind, FILL))
}

// Whether the work area is not zero behind a reply, or was touched where there is none.
fn touches_work(done: &Done) -> bool {
    let left = match done.answer {
        Answer::Replied(Ok(_)) => 0,
        _ => FILL,
    };
    !all_are(done.work.as_slice(), left)
}

// What a call is named in its line.
fn name(step: &Step) -> &'static str {
    match step {
        Step::Load(_) => "load",
        Step::On => "on",
        Step::Off => "off",
        Step::Command(_) => "command",
    }
}

// What one card answered.
#[derive(Clone, Copy)]
struct Side<'a>(&'a Done);

impl fmt::Display for Side<'_> {
    fn fmt<W: fmt::Write>(&self, f: &mut fmt::Formatter<W>) -> fmt::Result {
        let done = self.0;
        match done.answer {
            Answer::NotTaken => f.write_str("-"),
            Answer::Powered => f.write_str("+"),
            Answer::Loaded(Ok(())) => f.write_str("0"),
            Answer::Loaded(Err(refusal)) => {
                let number = u8::from(refusal);
                write!(f, "{number}")
            }
            Answer::Replied(Err(refusal)) => {
                let number = u8::from(refusal);
                write!(f, "!{number}")
            }
            Answer::Replied(Ok(n)) => {
                let reply = JoinedPairs(done.buffer.as_slice().get(0..n).unwrap_or(&[]));
                write!(f, "{reply}")
            }
        }
    }
}

// The answer line of a call: a word, or both answers where they are more than a word or differ. Left and right
// have a name each: only two questions are asked of both, and an array of two would be longer.
#[derive(Clone, Copy)]
pub struct AnswerLine<'a> {
    pub step: &'a Step,
    pub left: &'a Done,
    pub right: &'a Done,
}

impl AnswerLine<'_> {
    // Both answers, and what was touched.
    fn both<W: fmt::Write>(&self, f: &mut fmt::Formatter<W>) -> fmt::Result {
        let (name, left, right) = (name(self.step), self.left, self.right);
        let (left_side, right_side) = (Side(left), Side(right));
        write!(f, "{name} {left_side} {right_side}")?;
        if touches_buffer(left) || touches_buffer(right) {
            f.write_str(" BUFFER")?;
        }
        if touches_work(left) || touches_work(right) {
            f.write_str(" WORK")?;
        }
        Ok(())
    }
}

impl fmt::Display for AnswerLine<'_> {
    fn fmt<W: fmt::Write>(&self, f: &mut fmt::Formatter<W>) -> fmt::Result {
        match (self.left.answer, self.right.answer) {
            (Answer::NotTaken, Answer::NotTaken) => f.write_str("not taken"),
            (Answer::Powered, Answer::Powered) => f.write_str(name(self.step)),
            (Answer::Loaded(left), Answer::Loaded(right)) if left == right => {
                let answer = Side(self.left);
                write!(f, "load {answer}")
            }
            _ => self.both(f),
        }
    }
}
