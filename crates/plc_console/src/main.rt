//! The program `plc`: it checks and runs scenarios of IEC 61131-3 Structured Text programs.
#![tactic(auto)]

mod gate;
mod plc;

use crate::gate::OpenGate;
use crate::plc::plc;
use console_command::Status;
use plc_io::{StdSink, StdSource};
use plc_text::{NoMemory, Text};
use std::alloc::Global;
use std::env;
use std::env::{Args, Env};
use std::io::ErrorKind;
use std::process::ExitCode;

/// The words after the program's name.
///
/// # Errors
///
/// `Usage` where a word is not UTF-8, since no command has such a word, and `NoMemory`.
fn words<R: Env + Alloc<A = Global>>(rt: &R) -> Result<Vec<Text>, Status> {
    let args = env::args(rt).map_err(|error| match error.kind() {
        ErrorKind::OutOfMemory => Status::NoMemory,
        _ => Status::Usage,
    })?;
    texts(rt.alloc(), args).map_err(|_| Status::NoMemory)
}

fn texts(alloc: Global, args: Args) -> Result<Vec<Text>, NoMemory> {
    let mut texts = Vec::new(alloc);
    for arg in args.skip(1) {
        texts.push(Text::copy(alloc, arg.as_str())?)?;
    }
    Ok(texts)
}

fn main(rt: HostRuntime) -> ExitCode {
    let status = match words(&rt) {
        Ok(words) => {
            let mut source = StdSource::new(rt.stdin());
            let mut sink = StdSink::new(rt.stdout());
            plc(
                &rt,
                rt.alloc(),
                words.as_slice(),
                &mut source,
                &mut sink,
                &OpenGate,
            )
        }
        Err(status) => status,
    };
    if status != Status::Done {
        let _ = eprintln!(rt; "plc: {}", status.name());
    }
    ExitCode::from(status.code())
}
