// Reading the text of a load.
ghost use Rattle.std.specs.Prelude.{◌≡◌, IfOk, codes};
ghost use Rattle.std.specs.Option.{option_map};
ghost use Rattle.personalise.specs.Left.{left};
ghost use Rattle.personalise.specs.Limits.{limit, Within};
ghost use Rattle.personalise.specs.Lines.{ended, past, value};
ghost use Rattle.personalise.specs.Load.{flag, hexed, loading};
ghost use Rattle.personalise.specs.Says.{answered, ref_of, says};
ghost use Rattle.personalise.specs.Written.{written, Good, LawOfLoads};

use crate::key_load::KeyLoad;
use crate::limit::read_limit;
use crate::reader::Reader;
use crate::reference::Reference;
use crate::refusal::Refusal;
use numerals::read_array;

// The key that a text loads, or why it is refused. Any bytes may be given. No `TryFrom`: three facts are promised of it.
#[tactic(auto, using(crate::proofs::Law::law_of_loads))]
pub fn read(text: &[u8]) -> Result<KeyLoad, Refusal>
    ensures meaning { answered result ≡ loading text.now }
    ensures written { IfOk result (λ k. Good (says k) × (text.now ≡ written (says k))) }
    ensures law { LawOfLoads }
{
    if !is_ended(text) {
        return Err(Refusal::Malformed);
    }
    let mut lines = Reader::new(text);
    let reference = reference_line(&mut lines).ok_or(Refusal::Malformed)?;
    let key = key_line(&mut lines).ok_or(Refusal::Malformed)?;
    let weak = weak_line(&mut lines).ok_or(Refusal::Malformed)?;
    let masters = limit_line(&mut lines, b"masters=", u16::MAX as u64);
    let connections = limit_line(&mut lines, b"connections=", u32::MAX as u64);
    let transactions = limit_line(&mut lines, b"transactions=", u64::MAX);
    if !lines.is_done() {
        return Err(Refusal::Malformed);
    }
    KeyLoad::limited(reference, key, weak, masters, connections, transactions)
}

// Whether the last line has its LF.
fn is_ended(text: &[u8]) -> bool
    ensures { result ≡ ended text.now }
{
    matches!(text, [.., b'\n'])
}

// `ref=`: 22 to 68 bytes in hexadecimal.
fn reference_line(lines: &mut Reader<'_>) -> Option<Reference>
    ensures value { option_map ref_of result ≡ hexed 22 68 (value (codes "ref=") (left lines.old)) }
    ensures past { left lines.new ≡ past (codes "ref=") (left lines.old) }
{
    Reference::read(lines.value(b"ref=")?)
}

// `key=`: 32 bytes in hexadecimal.
fn key_line(lines: &mut Reader<'_>) -> Option<[u8; 32]>
    ensures value { result ≡ hexed 32 32 (value (codes "key=") (left lines.old)) }
    ensures past { left lines.new ≡ past (codes "key=") (left lines.old) }
{
    read_array(lines.value(b"key=")?)
}

// `weak=`: 0 or 1.
fn weak_line(lines: &mut Reader<'_>) -> Option<bool>
    ensures value { result ≡ flag (value (codes "weak=") (left lines.old)) }
    ensures past { left lines.new ≡ past (codes "weak=") (left lines.old) }
{
    match lines.value(b"weak=")? {
        [b'0'] => Some(false),
        [b'1'] => Some(true),
        _ => None,
    }
}

// A limit's line: a number, at most the top.
fn limit_line(lines: &mut Reader<'_>, name: &[u8], top: u64) -> Result<u64, Refusal>
    ensures value { result ≡ limit top (value name.now (left lines.old)) }
    ensures past { left lines.new ≡ past name.now (left lines.old) }
    ensures within { Within top result }
{
    read_limit(lines.value(name), top)
}
