// One line of a script.
use crate::setup::{NoSuchWord, Setup};
use numerals::read_decimal;
use show::unhex;
use std::alloc::{AllocError, Global};

// A command: the APDU, the random bytes, and how long the reply buffer and the work area are. This and `Step` own their
// bytes, where `pair`'s calls borrow them, and are types of their own: a script is read without the cards.
#[derive(Drop)]
pub struct CommandLine {
    pub apdu: Vec<u8>,
    pub random: Vec<u8>,
    pub buffer: usize,
    pub work: usize,
}

// A call on both cards.
#[derive(Drop)]
pub enum Step {
    Load(Vec<u8>),
    On,
    Off,
    Command(CommandLine),
}

// What a line says.
#[derive(Drop)]
pub enum Line {
    // An empty line or a comment.
    Nothing,
    // Two new cards.
    New(Setup),
    // A call on both.
    Call(Step),
}

// Why a line was not read.
#[derive(Clone, Copy, PartialEq, Eq, Debug)]
pub enum LineError {
    // It is not understood.
    Unknown,
    // There is no memory for it.
    Memory,
}

impl From<AllocError> for LineError {
    fn from(_error: AllocError) -> LineError {
        LineError::Memory
    }
}

impl From<NoSuchWord> for LineError {
    fn from(_error: NoSuchWord) -> LineError {
        LineError::Unknown
    }
}

// A length in decimal.
fn read_length(word: &str) -> Result<usize, LineError> {
    let length = read_decimal(word.as_bytes(), u64::MAX).ok_or(LineError::Unknown)?;
    Ok(length as usize)
}

// The bytes of a word in hexadecimal.
fn read_bytes(heap: Global, word: &str) -> Result<Vec<u8>, LineError> {
    unhex(heap, word)?.ok_or(LineError::Unknown)
}

// A command of the four words behind its name. Its lengths are read before its bytes, so that a line whose lengths are no numbers
// takes no memory; both byte strings are read before either is judged.
fn read_command(heap: Global, words: [&str; 4]) -> Result<CommandLine, LineError> {
    let [apdu, random, buffer, work] = words;
    let (buffer, work) = (read_length(buffer)?, read_length(work)?);
    let (apdu, random) = (unhex(heap, apdu)?, unhex(heap, random)?);
    Ok(CommandLine {
        apdu: apdu.ok_or(LineError::Unknown)?,
        random: random.ok_or(LineError::Unknown)?,
        buffer,
        work,
    })
}

impl Line {
    // Reads a line.
    pub fn read(heap: Global, text: &str) -> Result<Line, LineError> {
        if text.starts_with("#") {
            return Ok(Line::Nothing);
        }
        // No call has more than five words, so a sixth is as far as a line is cut, and no word of it takes memory.
        let mut words = text.split_whitespace();
        let mut word = || words.next();
        match [word(), word(), word(), word(), word(), word()] {
            [None, ..] => Ok(Line::Nothing),
            [Some("on"), None, ..] => Ok(Line::Call(Step::On)),
            [Some("off"), None, ..] => Ok(Line::Call(Step::Off)),
            [Some("load"), Some(text), None, ..] => {
                Ok(Line::Call(Step::Load(read_bytes(heap, text)?)))
            }
            [Some("new"), Some(a), Some(b), Some(c), Some(d), None] => {
                Ok(Line::New(Setup::try_from([a, b, c, d])?))
            }
            [Some("command"), Some(a), Some(b), Some(c), Some(d), None] => {
                Ok(Line::Call(Step::Command(read_command(heap, [a, b, c, d])?)))
            }
            _ => Err(LineError::Unknown),
        }
    }
}
