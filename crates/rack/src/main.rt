// Reads serial lines from standard input and says, line by line, what each one asks for in exact thousandths,
// or what is wrong with it and where.

#![tactic(auto)]

use intake::{Desk, read_input, take_all};
use service::Request;
use std::io;

// Says what is asked for, and keeps nothing.
#[derive(Drop)]
struct Speaker;

impl Desk for Speaker {
    ghost State = { Unit {0} };

    ghost state = { λ _. tt };

    ghost after = { λ s _. s };

    fn answer(&mut self, rt: &impl Print, number: usize, request: Request) -> io::Result<()> {
        println!(rt; "{number}: {request}")
    }
}

fn run(rt: &HostRuntime) -> anyhow::Result<()> {
    let text = read_input(rt.alloc(), rt.stdin())?;
    let tally = take_all(rt, text.as_slice(), &mut Speaker)?;
    println!(rt; "{tally}")?;
    Ok(())
}

fn main(rt: HostRuntime) -> anyhow::Result<()> {
    run(&rt)
}
