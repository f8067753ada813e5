//! The words of the command line, which `clap` reads.

ghost use Rattle.std.specs.Prelude.{◌≡◌, false, map, IfOk};
ghost use Rattle.std.specs.List.{list_any};
ghost use Rattle.clap.specs.Words.{app_of};
ghost use Rattle.console.specs.console_words.Words.{order_named, order_of_name as named};
ghost use Rattle.console.specs.console_words.Private.Words.{TakesOrders, is_flag as begins_as_flag};

use clap::error::ErrorKind;
use clap::{Arg, Command};
use plc_text::{NoMemory, Text};
use std::alloc::Global;

/// The names of the commands.
static NAMES: [&str; 2] = ["check", "play"];

/// The commands of the program.
#[derive(Clone, Copy, Debug, PartialEq, Eq)]
pub enum Order {
    /// Says whether a program breaks a rule of the language.
    Check,
    /// Runs a scenario and writes its journal.
    Play,
}

/// Whether the word would be a flag. The program has none.
fn is_flag(word: &Text) -> bool
    ensures { result ≡ begins_as_flag word.now }
{
    matches!(word.as_bytes(), [b'-', ..])
}

fn has_flag(words: &[Text]) -> bool
    ensures { result ≡ list_any begins_as_flag words.now }
{
    words.iter().any(is_flag)
}

/// The words as `clap` takes them.
fn lend<'a>(alloc: Global, words: &'a [Text]) -> Result<Vec<&'a str>, NoMemory>
    ensures { IfOk result (λ lent. map (λ word. word.now) lent.items ≡ words.entry.now) }
{
    let mut lent = Vec::new(alloc);
    for word in words {
        lent.push(word.as_str())?;
    }
    Ok(lent)
}

/// What `clap` knows of the program: it wants one word, the name of a command.
fn command_line<'a>(alloc: Global) -> Result<Command<'a>, NoMemory>
    ensures { IfOk result (λ command. TakesOrders (app_of command)) }
{
    let name = Arg::new(alloc, "command")
        .required(true)
        .value_parser(NAMES.as_slice());
    let command = Command::new(alloc, "plc")
        .no_binary_name(true)
        .disable_help_flag(true)
        .arg(name)?;
    Ok(command)
}

fn order_of_name(name: &str) -> Option<Order>
    ensures { result ≡ named name.now }
{
    match name {
        "check" => Some(Order::Check),
        "play" => Some(Order::Play),
        _ => None,
    }
}

/// The command that words order of which none is a flag.
fn read(alloc: Global, words: &[&str]) -> Result<Option<Order>, NoMemory>
    requires { list_any begins_as_flag (map (λ word. word.now) words.now) ≡ false }
    ensures { IfOk result (λ found. found ≡ order_named (map (λ word. word.now) words.now)) }
{
    let command = command_line(alloc)?;
    match command.try_get_matches_from(words) {
        Ok(matches) => match matches.get_str("command") {
            Some(name) => Ok(order_of_name(name)),
            None => Ok(None),
        },
        Err(error) => match error.kind() {
            ErrorKind::OutOfMemory => Err(NoMemory),
            _ => Ok(None),
        },
    }
}

/// The command that the words order, where they are its name and nothing else. They are the words behind the program's name.
///
/// `clap` reads them, and where it finds anything wrong with them they order nothing. So do words of which one begins with
/// `-`: `clap` would read it as a flag or, for `--`, as the end of the flags.
pub fn order_of(alloc: Global, words: &[Text]) -> Result<Option<Order>, NoMemory>
    ensures { IfOk result (λ found. found ≡ order_named words.now) }
{
    if has_flag(words) {
        return Ok(None);
    }
    let lent = lend(alloc, words)?;
    read(alloc, lent.as_slice())
}
