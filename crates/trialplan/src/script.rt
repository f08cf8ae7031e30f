// A script as lines, each a call or a question.
use crate::error::ScriptError;
use crate::reader::Reader;
use crate::request::{MOST, Request, Room};
use crate::words::LevelCount;
use history::{Call, PAGE, Question};
use std::alloc::Global;

// A plan has at most so many words, and as many generators.
const LIST: usize = 16;

// A pattern has at most so many counts.
const COUNTS: usize = 32;

/// A line that is a call or a question.
#[derive(Drop)]
pub struct Line<'a> {
    /// From 1, all lines of the script counted.
    pub number: usize,
    pub text: &'a str,
    pub request: Request<'a>,
}

impl<'a> Line<'a> {
    /// The file that the answer is written to.
    pub fn target(&self) -> Option<&'a str> {
        match &self.request {
            Request::Write(file) => Some(*file),
            Request::Call(_) | Request::Clear => None,
        }
    }

    // How many words the answer may have.
    fn words(&self) -> usize {
        match &self.request {
            Request::Call(Call::Ask(Question::AliasSet(_))) => MOST,
            Request::Call(Call::Ask(Question::Runs(_, count))) => (*count).min(MOST),
            _ => LIST,
        }
    }
}

/// A script.
#[derive(Drop)]
pub struct Script<'a> {
    levels: Option<LevelCount>,
    room: Option<Room>,
    pub lines: Vec<Line<'a>>,
}

impl<'a> Script<'a> {
    /// Reads all lines of a script.
    pub fn parse(alloc: Global, text: &'a str) -> Result<Script<'a>, ScriptError<'a>> {
        let mut script = Script {
            levels: None,
            room: None,
            lines: Vec::new(alloc),
        };
        for (before, line) in text.lines().enumerate() {
            let line = line.trim();
            if !line.is_empty() && !line.starts_with('#') {
                script.read(alloc, before.saturating_add(1), line)?;
            }
        }
        Ok(script)
    }

    // Reads one line.
    fn read(&mut self, alloc: Global, number: usize, text: &'a str) -> Result<(), ScriptError<'a>> {
        let mut reader = Reader::new(number, self.levels(), text);
        match reader.name()? {
            "levels" if self.is_new() => self.levels = Some(reader.levels()?),
            "memory" if self.room.is_none() && self.lines.is_empty() => {
                self.room = Some(reader.room()?);
            }
            name => {
                let line = Line {
                    number,
                    text,
                    request: reader.request(alloc, name)?,
                };
                self.check_read(&line)?;
                self.lines.push(line)?;
            }
        }
        reader.end()
    }

    // Whether nothing was read.
    fn is_new(&self) -> bool {
        self.levels.is_none() && self.room.is_none() && self.lines.is_empty()
    }

    // A file that is read is written by no line so far.
    fn check_read(&self, line: &Line<'a>) -> Result<(), ScriptError<'a>> {
        if let Request::Call(Call::Read(file)) = &line.request
            && self
                .lines
                .iter()
                .any(|earlier| earlier.target() == Some(*file))
        {
            return Err(ScriptError::ReadsWritten {
                line: line.number,
                file,
            });
        }
        Ok(())
    }

    /// How many levels the factors of the plan have.
    pub fn levels(&self) -> LevelCount {
        self.levels.unwrap_or(LevelCount::Two)
    }

    /// How much memory the questions are lent.
    pub fn room(&self) -> Room {
        self.room.unwrap_or_else(|| Room {
            bytes: PAGE,
            counts: COUNTS,
            words: self.lines.iter().map(Line::words).fold(LIST, usize::max),
        })
    }
}

#[cfg(test)]
mod tests {
    use super::*;
    use std::test::Fail;

    #[test]
    fn tells_what_is_wrong(rt: HostRuntime) -> Result<(), Fail> {
        for (text, message) in [
            (
                "\n# none\n strike block",
                "line 3: expected a place, from 1, found the end of the line",
            ),
            (
                "start 256",
                "line 1: expected a number of factors, at most 255, found \"256\"",
            ),
            (
                "settle now",
                "line 1: expected the end of the line, found \"now\"",
            ),
            (
                "start 8\nlevels 3",
                "line 2: expected a call (`levels` stands first, `memory` before all calls), found \"levels\"",
            ),
            (
                "write a\nread a",
                "line 2: a is read, but an earlier line writes it",
            ),
        ] {
            match Script::parse(rt.alloc(), text) {
                Ok(_) => assert!(rt; false, "at {text}"),
                Err(error) => assert_eq!(rt; error.to_string(rt.alloc())?.as_str(), message),
            }
        }
        Ok(())
    }

    #[test]
    fn lends_as_much_as_answers_take(rt: HostRuntime) -> Result<(), Fail> {
        for (text, words) in [
            ("list block", 16),
            ("runs 0 9\nruns 7 100", 100),
            ("runs 0 70000", 65536),
            ("alias-set A", 65536),
            ("levels 3\nmemory 1 2 3\nalias-set A", 3),
        ] {
            match Script::parse(rt.alloc(), text) {
                Ok(script) => assert_eq!(rt; script.room().words, words, "at {text}"),
                Err(_) => assert!(rt; false, "at {text}"),
            }
        }
        Ok(())
    }
}
