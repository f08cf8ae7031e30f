// A script is carried out on a new plan.
use crate::answered::{Answered, no_such_call, with_answers};
use crate::printing::{front, print_answer, print_memory};
use crate::ranking::{Ranking, Score};
use crate::request::{Request, Room};
use crate::script::Script;
use anyhow::{Context, Result};
use bounded::Bounded;
use history::{Call, Memory, Reply, best_generators_and_equal_answers};
use levels::Levels;
use planfile::{ENOUGH, deciding_bytes};
use std::alloc::{AllocError, Global};
use std::fs::File;
use std::io::Write;
use std::rt::Files;
use std::{fs, io};

// The first bytes of a file.
type Front = Bounded<u8, ENOUGH>;

/// Carries out a script on a new plan, prints what it answered, and writes the files.
///
/// A call that there is not on the plan ends the script: what was answered before is printed, and no file is written.
pub fn carry_out<L: Levels>(
    rt: &(impl Files + Print + AllocGlobal),
    script: &Script<'_>,
    shows_memory: bool,
) -> Result<()> {
    let alloc = rt.alloc();
    let files = read_files(rt, script)?;
    let mut calls = Vec::new(alloc);
    for (line, file) in script.lines.iter().zip(&files) {
        line.request.add_calls(file.as_slice(), &mut calls)?;
    }
    let mut memory = memory_of(alloc, script.room())?;
    let outcome = best_generators_and_equal_answers::<L, Ranking, Score>(
        alloc,
        &calls,
        &mut memory,
    )?;
    let lines = with_answers(alloc, &script.lines, &outcome.answers)?;
    print(rt, &lines, shows_memory)?;
    if let Some(line) = script.lines.get(lines.len()) {
        return Err(no_such_call(line, &lines).into());
    }
    write_files(rt, &lines)
}

// The memory that questions are lent, all zeros.
fn memory_of(alloc: Global, room: Room) -> Result<Memory, AllocError> {
    Ok(Memory {
        bytes: vec![in alloc; 0; room.bytes]?,
        counts: vec![in alloc; 0; room.counts]?,
        words: vec![in alloc; 0; room.words]?,
    })
}

// The bytes that decide on the files which a script reads, with none for a line that reads no file.
fn read_files(rt: &(impl Files + AllocGlobal), script: &Script<'_>) -> Result<Vec<Front>> {
    let mut files = Vec::new(rt.alloc());
    for line in &script.lines {
        let file = match &line.request {
            Request::Call(Call::Read(path)) => {
                read_front(rt, path).context(format_args!("cannot read {path}"))?
            }
            _ => Bounded::new(0),
        };
        files.push(file)?;
    }
    Ok(files)
}

// The first bytes of a file, as many as it takes to decide on it.
fn read_front(rt: &impl Files, path: &str) -> io::Result<Front> {
    deciding_bytes(&mut File::open(rt, path)?)
}

// Prints all answers, each with what memory held then if that is asked for.
fn print(
    rt: &(impl Print + AllocGlobal),
    lines: &[Answered<'_>],
    shows_memory: bool,
) -> io::Result<()> {
    let mut out = Vec::new(rt.alloc());
    for answered in lines {
        print_answer(&mut out, answered)?;
        if shows_memory {
            print_memory(&mut out, &answered.answer.memory)?;
        }
    }
    io::writer(rt).write_all(&out)
}

// Writes the plan files that were asked for. Nothing is written for a refusal.
fn write_files(rt: &impl Files, lines: &[Answered<'_>]) -> Result<()> {
    for answered in lines {
        if let Request::Write(path) = answered.line.request
            && let Reply::Written(Ok(count)) = answered.answer.reply
        {
            let file = front(&answered.answer.memory.bytes, count);
            fs::write(rt, path, file).context(format_args!("cannot write {path}"))?;
        }
    }
    Ok(())
}

#[cfg(test)]
mod tests {
    use super::*;
    use std::io::Read;
    use std::test::Fail;

    #[test]
    fn fronts_of_inputs(rt: HostRuntime) -> Result<(), Fail> {
        assert_eq!(rt;
            deciding_bytes(&mut b"".as_slice())?.as_slice(),
            b"".as_slice()
        );
        assert_eq!(rt;
            deciding_bytes(&mut b"DWF".as_slice())?.as_slice(),
            b"DWF".as_slice()
        );
        let mut parts = b"DW".as_slice().chain(b"F\x01".as_slice());
        assert_eq!(rt;
            deciding_bytes(&mut parts)?.as_slice(),
            b"DWF\x01".as_slice()
        );
        assert_eq!(rt; deciding_bytes(&mut [7u8; 300].as_slice())?.len(), ENOUGH);
        Ok(())
    }
}
