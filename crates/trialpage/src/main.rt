// Reads a plan file from standard input, and prints its trial page, or one line with the number of the refusal.
#![tactic(auto)]

use history::{PAGE, page_of_input};
use std::io;
use std::io::Write;

fn main(rt: HostRuntime) -> io::Result<()> {
    let mut memory = [0; PAGE];
    match page_of_input(&mut rt.stdin(), &mut memory)? {
        Ok(len) => rt.stdout().write_all(&memory[..len]),
        Err(refusal) => println!(rt; "{refusal}"),
    }
}
