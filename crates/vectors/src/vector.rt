// A vector as a line of text: an algorithm, its key, its input, and what must come out, in hexadecimal.
use crate::algorithm::Algorithm;
use crate::fault::Fault;
use show::unhex;
use std::alloc::Global;

// What is run, and what must come out.
#[derive(Drop)]
pub struct Vector<'a> {
    pub name: &'a str,
    pub algorithm: Algorithm,
    pub key: Vec<u8>,
    pub input: Vec<u8>,
    pub expected: Vec<u8>,
}

// Bytes, or a byte string so many times over: 61*1000000; nothing where the text is neither.
fn bytes(heap: Global, text: &str) -> Result<Option<Vec<u8>>, Fault> {
    let Some((once, times)) = text.split_once('*') else {
        return Ok(unhex(heap, text)?);
    };
    let Ok(times) = times.parse::<u32>() else {
        return Ok(None);
    };
    let once = unhex(heap, once)?;
    Ok(
        once.map(|once| once.as_slice().repeat(heap, times as usize))
            .transpose()?,
    )
}

impl<'a> Vector<'a> {
    // Reads a line of four words. All three byte strings are read before one of them is judged, so that a line that no memory
    // suffices for ends the run, whichever of its words is wrong.
    pub fn read(heap: Global, line: &'a str) -> Result<Vector<'a>, Fault> {
        let mut words = line.split_whitespace();
        let mut word = || words.next().ok_or(Fault::NotAVector);
        let (name, key, input, expected) = (word()?, word()?, word()?, word()?);
        let algorithm = name.parse()?;
        let (key, input, expected) = (
            bytes(heap, key)?,
            bytes(heap, input)?,
            bytes(heap, expected)?,
        );
        Ok(Vector {
            name,
            algorithm,
            key: key.ok_or(Fault::NotAVector)?,
            input: input.ok_or(Fault::NotAVector)?,
            expected: expected.ok_or(Fault::NotAVector)?,
        })
    }
}
