// What is said of a line.
use crate::fault::Fault;
use crate::run::run;
use crate::vector::Vector;
use show::JoinedPairs;
use std::alloc::Global;
use std::fmt;

// Why a vector failed.
#[derive(Drop)]
pub enum Failure {
    OtherLength,
    CameOut(Vec<u8>),
}

impl fmt::Display for Failure {
    fn fmt<W: fmt::Write>(&self, f: &mut fmt::Formatter<W>) -> fmt::Result {
        match self {
            Failure::OtherLength => write!(f, "{}", Fault::OtherLength),
            Failure::CameOut(bytes) => write!(f, "{} came out", JoinedPairs(bytes.as_slice())),
        }
    }
}

#[derive(Drop)]
pub enum Report<'a> {
    // A heading, which is printed as it is, or an empty line.
    Heading(&'a str),
    NotAVector(&'a str),
    Judged {
        name: &'a str,
        expected: Vec<u8>,
        verdict: Result<(), Failure>,
    },
}

impl<'a> Report<'a> {
    // Reads a line, and runs the vector that it is.
    pub fn of(heap: Global, line: &'a str) -> Result<Report<'a>, Fault> {
        if line.is_empty() || line.starts_with("#") {
            return Ok(Report::Heading(line));
        }
        match Report::judged(heap, line) {
            Err(Fault::NotAVector) => Ok(Report::NotAVector(line)),
            judged => judged,
        }
    }

    fn judged(heap: Global, line: &'a str) -> Result<Report<'a>, Fault> {
        let vector = Vector::read(heap, line)?;
        let came = run(
            heap,
            vector.algorithm,
            vector.key.as_slice(),
            vector.input.as_slice(),
        );
        let verdict = match came {
            Ok(came) if came.as_slice() == vector.expected.as_slice() => Ok(()),
            Ok(came) => Err(Failure::CameOut(came)),
            Err(Fault::OtherLength) => Err(Failure::OtherLength),
            Err(fault) => return Err(fault),
        };
        Ok(Report::Judged {
            name: vector.name,
            expected: vector.expected,
            verdict,
        })
    }

    // Whether the line is a vector that passed, or none at all.
    pub fn is_good(&self) -> bool {
        matches!(
            self,
            Report::Heading(_)
                | Report::Judged {
                    verdict: Ok(()),
                    ..
                }
        )
    }
}

impl<'a> fmt::Display for Report<'a> {
    fn fmt<W: fmt::Write>(&self, f: &mut fmt::Formatter<W>) -> fmt::Result {
        match self {
            Report::Heading(line) => write!(f, "{line}"),
            Report::NotAVector(line) => write!(f, "not a vector: {line}"),
            Report::Judged {
                name,
                expected,
                verdict,
            } => {
                let expected = JoinedPairs(expected.as_slice());
                match verdict {
                    Ok(()) => write!(f, "ok      {name} {expected}"),
                    Err(failure) => write!(f, "FAILED  {name} {expected}: {failure}"),
                }
            }
        }
    }
}
