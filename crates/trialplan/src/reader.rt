// The words of a line, read from the front.
ghost use Rattle.std.specs.Prelude.{◌≤◌, IfOk};

use crate::error::ScriptError;
use crate::ranking::{One, Ranking, Rule, Score};
use crate::words::{LevelCount, code_of};
use contents::Side;
use preferences::{Cheapest, FirstThenSecond};
use std::alloc::Global;
use std::str::FromStr;

// No word has more factors.
const FACTORS: usize = 32;

// What is expected where a word of factors should stand.
const CODE: &str = "a word, as a code or as letters";

/// What is still to be read of a line.
#[derive(Clone, Copy)]
pub struct Reader<'a> {
    line: usize,
    levels: LevelCount,
    rest: &'a str,
}

impl<'a> Reader<'a> {
    /// A whole line, by its number from 1, in a script of so many levels.
    pub fn new(line: usize, levels: LevelCount, text: &'a str) -> Reader<'a> {
        Reader {
            line,
            levels,
            rest: text,
        }
    }

    // The next word, if there is one.
    fn next(&mut self) -> Option<&'a str> {
        let rest = self.rest.trim_start();
        if rest.is_empty() {
            return None;
        }
        let (word, rest) = rest
            .split_once(|c: char| c.is_whitespace())
            .unwrap_or((rest, ""));
        self.rest = rest;
        Some(word)
    }

    // What the next word is, if there is one. It is not taken.
    fn peek(&self) -> Option<&'a str> {
        let mut ahead = *self;
        ahead.next()
    }

    // Takes the next word if it is this one.
    fn takes(&mut self, name: &str) -> bool {
        let taken = self.peek().is_some_and(|word| word == name);
        if taken {
            let _ = self.next();
        }
        taken
    }

    /// An error at a word that stands where something else was expected.
    pub fn unexpected(&self, expected: &'static str, found: &'a str) -> ScriptError<'a> {
        ScriptError::Unexpected {
            line: self.line,
            expected,
            found,
        }
    }

    // An error at the next word, or at the end of the line.
    fn stops(&self, expected: &'static str) -> ScriptError<'a> {
        match self.peek() {
            Some(found) => self.unexpected(expected, found),
            None => ScriptError::Ended {
                line: self.line,
                expected,
            },
        }
    }

    /// The next word.
    pub fn word(&mut self, expected: &'static str) -> Result<&'a str, ScriptError<'a>> {
        match self.next() {
            Some(word) => Ok(word),
            None => Err(self.stops(expected)),
        }
    }

    /// The name of a file: the rest of the line.
    pub fn file(&mut self) -> Result<&'a str, ScriptError<'a>> {
        let file = self.rest.trim();
        self.rest = "";
        if file.is_empty() {
            return Err(self.stops("the name of a file"));
        }
        Ok(file)
    }

    /// Nothing more.
    pub fn end(&mut self) -> Result<(), ScriptError<'a>> {
        match self.next() {
            Some(word) => Err(self.unexpected("the end of the line", word)),
            None => Ok(()),
        }
    }

    /// A number in base ten.
    pub fn number<T: FromStr>(&mut self, expected: &'static str) -> Result<T, ScriptError<'a>>
    where
        T::Err: Drop,
    {
        let word = self.word(expected)?;
        if word.starts_with('+') {
            return Err(self.unexpected(expected, word));
        }
        match word.parse() {
            Ok(number) => Ok(number),
            Err(_) => Err(self.unexpected(expected, word)),
        }
    }

    /// A number in base ten, at most so much.
    pub fn at_most(&mut self, most: usize, expected: &'static str) -> Result<usize, ScriptError<'a>>
        ensures { IfOk result (λ number. number ≤ most) }
    {
        let start = *self;
        let number = self.number(expected)?;
        if number > most {
            return Err(start.stops(expected));
        }
        Ok(number)
    }

    /// A word of factors, as its code.
    pub fn code(&mut self) -> Result<u64, ScriptError<'a>> {
        let word = self.word(CODE)?;
        self.code_of(word)
    }

    /// All words of factors up to the end of the line.
    pub fn codes(&mut self, alloc: Global) -> Result<Vec<u64>, ScriptError<'a>> {
        let mut codes = Vec::new(alloc);
        for word in self.rest.split_whitespace() {
            codes.push(self.code_of(word)?)?;
        }
        self.rest = "";
        Ok(codes)
    }

    // The code of a word of factors.
    fn code_of(&self, word: &'a str) -> Result<u64, ScriptError<'a>> {
        match code_of(self.levels, word) {
            Some(code) => Ok(code),
            None => Err(self.unexpected(CODE, word)),
        }
    }

    /// A side of a plan.
    pub fn side(&mut self) -> Result<Side, ScriptError<'a>> {
        let expected = "`defining` or `block`";
        match self.word(expected)? {
            "defining" => Ok(Side::Defining),
            "block" => Ok(Side::Block),
            other => Err(self.unexpected(expected, other)),
        }
    }

    /// A preference that scores words.
    pub fn score(&mut self) -> Result<Score, ScriptError<'a>> {
        let expected = "`shortest` or `cheapest`";
        match self.word(expected)? {
            "shortest" => Ok(Score::Shortest),
            "cheapest" => Ok(Score::Cheapest(self.cheapest()?)),
            other => Err(self.unexpected(expected, other)),
        }
    }

    /// A preference.
    pub fn ranking(&mut self) -> Result<Ranking, ScriptError<'a>> {
        let first = self.one()?;
        if !self.takes("then") {
            return Ok(Ranking::One(first));
        }
        let second = self.one()?;
        Ok(Ranking::Two(FirstThenSecond { first, second }))
    }

    // A preference by one rule.
    fn one(&mut self) -> Result<One, ScriptError<'a>> {
        if self.takes("reversed") {
            return Ok(self.rule()?.turned());
        }
        self.rule()
    }

    // A rule by its name.
    fn rule(&mut self) -> Result<One, ScriptError<'a>> {
        let expected = "`shortest`, `longest`, `cheapest` or `least-aberration`";
        match self.word(expected)? {
            "shortest" => Ok(One::Plain(Rule::Score(Score::Shortest))),
            "longest" => Ok(One::Plain(Rule::Score(Score::Shortest)).turned()),
            "cheapest" => Ok(One::Plain(Rule::Score(Score::Cheapest(self.cheapest()?)))),
            "least-aberration" => Ok(One::Plain(Rule::LeastAberration)),
            other => Err(self.unexpected(expected, other)),
        }
    }

    // At most 32 costs, factor 1 first. Those that are left out are 0.
    fn cheapest(&mut self) -> Result<Cheapest, ScriptError<'a>> {
        let mut costs = [0; FACTORS];
        for cost in &mut costs {
            match self.peek() {
                None | Some("then") => break,
                Some(_) => *cost = self.number("a cost from 0 to 65535")?,
            }
        }
        Ok(Cheapest::new(costs))
    }
}
