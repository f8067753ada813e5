//! What no run of the program shows: reads and writes that fail, and calls above which no command stands. Lines of the input that begin
//! with `| ` are lines of a text; the first one behind a question begins a new text. Empty lines and those that begin with `#` are printed
//! as they are. Each other line asks something of the text before it, and is printed with the answer behind it.
#![tactic(auto)]

use plc_text::{NoMemory, Text, split_field};
use source_check::Language;
use std::alloc::Global;
use std::io;

/// Adds the answer to a question on a text.
fn tell(alloc: Global, told: &mut Text, text: &str, line: &str) -> Result<(), NoMemory> {
    let (question, words) = split_field(line);
    match question {
        "code" => code_tests::tell::<Language>(alloc, told, text, words),
        "core" => plant_tests::tell(alloc, told, text, words),
        "valid" | "list" | "run" | "hook" => {
            machine_tests::tell(alloc, told, text, question, words)
        }
        _ => source_tests::tell::<Language>(alloc, told, text, question, words),
    }
}

fn main(rt: HostRuntime) -> io::Result<()> {
    let mut text = String::new(rt.alloc());
    let mut is_asked = false;
    for line in rt.lines(rt.alloc()) {
        let line = line?;
        if let Some(words) = line.as_str().strip_prefix("| ") {
            if is_asked {
                text.clear();
                is_asked = false;
            }
            text.push_str(words)?;
            text.push_str("\n")?;
        } else if line.is_empty() || line.starts_with("#") {
            println!(rt; "{line}")?;
        } else {
            let mut told = Text::new(rt.alloc());
            let answer = match tell(rt.alloc(), &mut told, text.as_str(), line.as_str()) {
                Ok(()) => told.as_str(),
                Err(NoMemory) => "no memory",
            };
            println!(rt; "{line} -> {answer}")?;
            is_asked = true;
        }
    }
    Ok(())
}
