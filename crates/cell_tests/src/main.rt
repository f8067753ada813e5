//! What passes to a plant are answered, on one thread and on several. Each line of the input asks something of a plant of three counters, and
//! is printed with the answer behind it; empty lines and those that begin with `#` are printed as they are. `split PASSES TIMES` splits a
//! pass off, so many times, of a plant that has so many; `rejoin PASSES TIMES` joins it again each time; `turns THREADS TIMES` has each of
//! 1, 2 or 4 threads take so many turns; `seen` has one thread wait for the events of another; `cycles PLAYS` has four threads do the
//! cycles of four lists.
#![tactic(auto)]

mod answers;
mod jobs;
mod plants;

use crate::answers::tell;
use plc_text::{NoMemory, Text};
use std::io;

fn main(rt: HostRuntime) -> io::Result<()> {
    for line in rt.lines(rt.alloc()) {
        let line = line?;
        if line.is_empty() || line.starts_with("#") {
            println!(rt; "{line}")?;
        } else {
            let mut told = Text::new(rt.alloc());
            let answer = match tell(&rt, rt.alloc(), &mut told, line.as_str()) {
                Ok(()) => told.as_str(),
                Err(NoMemory) => "no memory",
            };
            println!(rt; "{line} -> {answer}")?;
        }
    }
    Ok(())
}
