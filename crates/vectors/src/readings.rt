// Reading as vectors: a key's load gives its answer, joined blocks give what they are.
use crate::run::Outcome;
use objects::join::{Unread, read_object};
use personalise::read;
use std::alloc::Global;

// 00 where the text loads a key, else the number of its refusal, as the vectors write it.
pub fn load(heap: Global, text: &[u8]) -> Outcome {
    let number = read(text).err().map_or(0, u8::from);
    Ok(vec![in heap; number]?)
}

// 00 and the value of a whole object; 01 where blocks are to come; 02 where it is bad; as the vectors write it.
pub fn object(heap: Global, bytes: &[u8]) -> Outcome {
    let mut out = Vec::new(heap);
    match read_object(bytes) {
        Ok(value) => {
            out.push(0)?;
            out.extend_from_slice(value)?;
        }
        Err(Unread::Incomplete) => out.push(1)?,
        Err(Unread::Bad) => out.push(2)?,
    }
    Ok(out)
}
