// What a plan answered, as text.
ghost use Rattle.std.specs.Prelude.{◌≡◌, take};

use crate::answered::Answered;
use crate::request::{Asked, Request};
use history::{Call, Memory, Question, Reply};
use std::fmt::Display;
use std::io;
use std::io::Write;

/// Prints a line and what it was answered.
pub fn print_answer(out: &mut Vec<u8>, answered: &Answered<'_>) -> io::Result<()> {
    let text = answered.line.text;
    write!(out, "{text}:")?;
    match answered.answer.reply {
        Reply::Changed(Ok(())) => writeln!(out, " done"),
        Reply::Factors(n) => writeln!(out, " {n}"),
        Reply::Counts(defining, block) => writeln!(out, " {defining} {block}"),
        Reply::Code(Ok(code)) => writeln!(out, " {code}"),
        Reply::Resolution(Some((length, count))) => writeln!(out, " {length} {count}"),
        Reply::Resolution(None) => writeln!(out, " none"),
        Reply::Block(Ok(block)) => writeln!(out, " {block}"),
        Reply::Written(Ok(count)) => print_written(out, answered, count),
        Reply::Changed(Err(refusal))
        | Reply::Code(Err(refusal))
        | Reply::Written(Err(refusal))
        | Reply::Block(Err(refusal)) => writeln!(out, " {refusal}"),
    }
}

// Prints an answer that was written into memory.
fn print_written(out: &mut Vec<u8>, answered: &Answered<'_>, count: usize) -> io::Result<()> {
    let memory = &answered.answer.memory;
    match &answered.line.request {
        Request::Call(Call::Ask(question)) => print_question(out, question, count, memory),
        Request::Clear => {
            write!(out, " {count} ")?;
            for pair in front(&memory.bytes, pairs(answered.factors)) {
                write!(out, "{pair}")?;
            }
            writeln!(out)
        }
        Request::Call(_) | Request::Write(_) => writeln!(out, " {count}"),
    }
}

// Prints an answer of so many numbers.
fn print_question(
    out: &mut Vec<u8>,
    question: &Asked,
    count: usize,
    memory: &Memory,
) -> io::Result<()> {
    match question {
        Question::Page => {
            writeln!(out)?;
            out.write_all(front(&memory.bytes, count))
        }
        Question::Pattern => {
            print_numbers(out, front(&memory.counts, count))?;
            writeln!(out)
        }
        Question::ScoredGenerators(..) => {
            print_numbers(out, front(&memory.words, count))?;
            write!(out, " scores")?;
            print_numbers(out, front(&memory.counts, count))?;
            writeln!(out)
        }
        _ => {
            print_numbers(out, front(&memory.words, count))?;
            writeln!(out)
        }
    }
}

/// Prints all of the memory.
pub fn print_memory(out: &mut Vec<u8>, memory: &Memory) -> io::Result<()> {
    write!(out, "memory:")?;
    print_numbers(out, &memory.bytes)?;
    write!(out, ";")?;
    print_numbers(out, &memory.counts)?;
    write!(out, ";")?;
    print_numbers(out, &memory.words)?;
    writeln!(out)
}

// Prints numbers, each behind a space.
fn print_numbers<T: Display>(out: &mut Vec<u8>, numbers: &[T]) -> io::Result<()> {
    for number in numbers {
        write!(out, " {number}")?;
    }
    Ok(())
}

// The first items of a list, so many if there are.
pub fn front<T: Copy>(items: &[T], count: usize) -> &[T]
    ensures { result.now ≡ take count items.now }
{
    &items[..count.min(items.len())]
}

// How many pairs so many factors have.
fn pairs(factors: u8) -> usize {
    let n = usize::from(factors);
    n * n.saturating_sub(1) / 2
}
