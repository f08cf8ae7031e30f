// What a line of a script asks for, and how it is written.
use crate::error::ScriptError;
use crate::ranking::{Ranking, Score};
use crate::reader::Reader;
use crate::words::LevelCount;
use history::{Call, Question};
use std::alloc::Global;

/// A question with its list of words, if it has one.
pub type Asked = Question<Ranking, Score, Vec<u64>>;

/// What a line asks for.
#[derive(Drop)]
pub enum Request<'a> {
    /// A call, with the name of the file that it reads.
    Call(Call<&'a str, Asked>),
    /// The plan file, and the name of the file that it goes to.
    Write(&'a str),
    /// The clear pairs.
    Clear,
}

/// How much memory the questions are lent.
#[derive(Clone, Copy, Debug, PartialEq, Eq)]
pub struct Room {
    pub bytes: usize,
    pub counts: usize,
    pub words: usize,
}

/// No memory that is lent is longer: no alias set has more words.
pub const MOST: usize = 65536;

// What is expected where a line begins.
const CALL: &str = "a call (`levels` stands first, `memory` before all calls)";

impl<'a> Reader<'a> {
    /// The name that a line begins with.
    pub fn name(&mut self) -> Result<&'a str, ScriptError<'a>> {
        self.word(CALL)
    }

    /// How many levels there are.
    pub fn levels(&mut self) -> Result<LevelCount, ScriptError<'a>> {
        let expected = "2 or 3";
        match self.word(expected)? {
            "2" => Ok(LevelCount::Two),
            "3" => Ok(LevelCount::Three),
            other => Err(self.unexpected(expected, other)),
        }
    }

    /// How much memory is lent.
    pub fn room(&mut self) -> Result<Room, ScriptError<'a>> {
        Ok(Room {
            bytes: self.length("a number of bytes, at most 65536")?,
            counts: self.length("a number of counts, at most 65536")?,
            words: self.length("a number of words, at most 65536")?,
        })
    }

    // How long memory is.
    fn length(&mut self, expected: &'static str) -> Result<usize, ScriptError<'a>> {
        self.at_most(MOST, expected)
    }

    /// What the rest of a line asks for that begins with a name.
    pub fn request(
        &mut self,
        alloc: Global,
        name: &'a str,
    ) -> Result<Request<'a>, ScriptError<'a>> {
        match name {
            "write" => Ok(Request::Write(self.file()?)),
            "clear" => Ok(Request::Clear),
            "start" => Ok(Request::Call(Call::Start(self.number(
                "a number of factors, at most 255",
            )?))),
            "read" => Ok(Request::Call(Call::Read(self.file()?))),
            "admit" => Ok(Request::Call(Call::Admit(self.side()?, self.code()?))),
            "strike" => Ok(Request::Call(Call::Strike(self.side()?, self.place()?))),
            "settle" => Ok(Request::Call(Call::Settle)),
            "reopen" => Ok(Request::Call(Call::Reopen)),
            _ => Ok(Request::Call(Call::Ask(self.question(alloc, name)?))),
        }
    }

    // A question that begins with a name.
    fn question(&mut self, alloc: Global, name: &'a str) -> Result<Asked, ScriptError<'a>> {
        match name {
            "factors" => Ok(Question::Factors),
            "counts" => Ok(Question::Counts),
            "word" => Ok(Question::Word(self.side()?, self.place()?)),
            "list" => Ok(Question::List(self.side()?)),
            "generators" => Ok(Question::Generators(self.side()?, self.ranking()?)),
            "scored-generators" => Ok(Question::ScoredGenerators(self.side()?, self.score()?)),
            "pattern" => Ok(Question::Pattern),
            "resolution" => Ok(Question::Resolution),
            "alias" => Ok(Question::AliasMember(self.code()?, self.number(MEMBER)?)),
            "alias-set" => Ok(Question::AliasSet(self.code()?)),
            "page" => Ok(Question::Page),
            "run" => Ok(Question::Run(self.number(RUN)?)),
            "runs" => Ok(Question::Runs(self.number(RUN)?, self.number(COUNT)?)),
            "block-number" => Ok(Question::BlockNumber(self.code()?, self.codes(alloc)?)),
            _ => Err(self.unexpected(CALL, name)),
        }
    }

    // A place in a list.
    fn place(&mut self) -> Result<usize, ScriptError<'a>> {
        self.number("a place, from 1")
    }
}

// What is expected where a number should stand.
const MEMBER: &str = "the number of a member, from 0";

const RUN: &str = "the number of a run, from 0";

const COUNT: &str = "how many runs";
