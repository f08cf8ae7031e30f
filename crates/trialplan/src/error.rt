// What can be wrong with a script.
use std::alloc::AllocError;
use thiserror::Error;

/// Why a script is not carried out.
#[derive(Debug, Drop, Error)]
pub enum ScriptError<'a> {
    #[error("line {line}: expected {expected}, found {found:?}")]
    Unexpected {
        line: usize,
        expected: &'static str,
        found: &'a str,
    },
    #[error("line {line}: expected {expected}, found the end of the line")]
    Ended {
        line: usize,
        expected: &'static str,
    },
    #[error("line {line}: {file} is read, but an earlier line writes it")]
    ReadsWritten {
        line: usize,
        file: &'a str,
    },
    #[error("out of memory")]
    Memory(#[from(alloc)] AllocError),
}

/// A line asked for a call that there is not on the plan as it was.
#[derive(Debug, Drop, Error)]
pub enum NoSuchCall {
    #[error("line {0}: there is no such call on an open plan")]
    Open(usize),
    #[error("line {0}: there is no such call on a settled plan")]
    Settled(usize),
    #[error("line {0}: there is no such call on a plan of three levels")]
    ThreeLevels(usize),
}
