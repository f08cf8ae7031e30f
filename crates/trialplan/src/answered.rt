// The lines of a script with what they were answered.
ghost use Rattle.std.specs.Prelude.{◌≡◌, map, take, length, IfOk};

use crate::error::NoSuchCall;
use crate::request::Request;
use crate::script::Line;
use history::{Answer, Call, Reply};
use std::alloc::{AllocError, Global};

/// A line with its answer.
#[derive(Clone, Copy)]
pub struct Answered<'s> {
    pub line: &'s Line<'s>,
    pub answer: &'s Answer,
    /// How many factors the plan has, of a line that asks for clear pairs.
    pub factors: u8,
}

/// The lines that were answered, in their order: the first ones.
pub fn with_answers<'s>(
    alloc: Global,
    lines: &'s [Line<'s>],
    answers: &'s [Answer],
) -> Result<Vec<Answered<'s>>, AllocError>
    ensures { IfOk result (λ all.
        map (λ a. a.line.now) all.items ≡ take (length all.items) lines.now) }
{
    let mut all = Vec::new(alloc);
    let mut rest = answers;
    for line in lines {
        let mut factors = 0;
        if let Request::Clear = line.request {
            (factors, rest) = split_factors(rest);
        }
        let Some((answer, others)) = rest.split_first() else {
            break;
        };
        rest = others;
        all.push(Answered {
            line,
            answer,
            factors,
        })?;
    }
    Ok(all)
}

// How many factors the first of some answers tells, and the others.
fn split_factors(answers: &[Answer]) -> (u8, &[Answer]) {
    match answers {
        [
            Answer {
                reply: Reply::Factors(n),
                ..
            },
            others @ ..,
        ] => (*n, others),
        _ => (0, &[]),
    }
}

/// Why a line has no answer that stands behind these.
pub fn no_such_call(line: &Line<'_>, before: &[Answered<'_>]) -> NoSuchCall {
    let number = line.number;
    match line.request {
        Request::Call(Call::Reopen) => NoSuchCall::Open(number),
        Request::Call(Call::Ask(_)) | Request::Write(_) | Request::Clear => {
            if is_settled(before) {
                NoSuchCall::ThreeLevels(number)
            } else {
                NoSuchCall::Open(number)
            }
        }
        Request::Call(_) => NoSuchCall::Settled(number),
    }
}

// Whether lines leave a plan settled that was open.
fn is_settled(lines: &[Answered<'_>]) -> bool {
    let mut settled = false;
    for answered in lines {
        match answered.line.request {
            Request::Call(Call::Settle) => settled = true,
            Request::Call(Call::Reopen) => settled = false,
            _ => {}
        }
    }
    settled
}
