// Answers calls on frames, cells, fields and classes, one a line, as standard input brings them. What it is run on, and what it
// must answer, came from another implementation.
#![tactic(auto)]

mod asks;
mod calls;
mod readers;
mod stops;
mod texts;

use std::io;
use std::io::{BufRead, BufReader};

fn main(rt: HostRuntime) -> io::Result<()> {
    for line in BufReader::new(rt.alloc(), rt.stdin())?.lines(rt.alloc()) {
        let line = line?;
        let answer = calls::answer(rt.alloc(), line.as_str())?;
        rt.println(answer.as_str())?;
    }
    Ok(())
}
