// Carries out a script of calls on a new trial plan, and prints what each answered.
#![tactic(auto)]

use anyhow::{Context, Result};
use carrying::carry_out;
use clap::{Arg, ArgAction, Command};
use language::LANGUAGE;
use levels::{ThreeLevels, TwoLevels};
use script::Script;
use std::io;
use std::process::ExitCode;
use words::LevelCount;

mod answered;
mod carrying;
mod error;
mod language;
mod lending;
mod printing;
mod ranking;
mod reader;
mod request;
mod script;
mod words;

fn main(rt: HostRuntime) -> Result<ExitCode> {
    let alloc = rt.alloc();
    let arguments: Vec<String> = std::env::args(&rt)?.collect(alloc)?;
    let memory = Arg::new(alloc, "memory")
        .long("memory")
        .action(ArgAction::SetTrue)
        .help("Print the memory that is lent after each answer");
    let command = Command::new(alloc, "trialplan")
        .about("Carries out a script on a new trial plan")
        .after_help(LANGUAGE)
        .arg(memory)?;
    let matches = match command.try_get_matches_from(arguments.as_slice()) {
        Ok(matches) => matches,
        Err(error) => {
            error.print(&rt)?;
            return Ok(ExitCode::from(error.exit_code() as u8));
        }
    };
    let text = io::read_to_string(alloc, rt.stdin()).context("cannot read the script")?;
    let script = Script::parse(alloc, &text)?;
    let shows_memory = matches.get_flag("memory");
    match script.levels() {
        LevelCount::Two => carry_out::<TwoLevels>(&rt, &script, shows_memory)?,
        LevelCount::Three => carry_out::<ThreeLevels>(&rt, &script, shows_memory)?,
    }
    Ok(ExitCode::SUCCESS)
}
