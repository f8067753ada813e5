//! Arguments as they are written.

ghost use Rattle.std.specs.Prelude.{◌≡◌, ◌+◌, IfOk};
ghost use Rattle.std.specs.List.{list_any};
ghost use Rattle.st_tree.specs.Expression.{argument_of, arguments_of};
ghost use Rattle.st_rules.specs.Calls as calls;
ghost use Rattle.check_calls.specs.Heads.{head, heads_told};
ghost use Rattle.check_calls.specs.Private.Heads as own;

use plc_text::{NoMemory, Text};
use st_tree::Argument;
use std::alloc::Global;

/// How an argument is written.
#[derive(Clone, Copy)]
pub enum Head<'a> {
    /// A positional argument.
    Unnamed,
    /// `name := value`, with the line of the name.
    Input(u32, &'a Text),
    /// `name => place`, with the line of the name.
    Output(u32, &'a Text),
}

#[tactic(auto, using(st_tree::specs::Expression::expression_views))]
fn head_of(argument: &Argument<u32>) -> Head<'_>
    ensures { head result ≡ own.head_of (argument_of argument.now) }
{
    match argument {
        Argument::Positional(_) => Head::Unnamed,
        Argument::Input(line, name, _) => Head::Input(*line, name),
        Argument::Output(line, name, _, _) => Head::Output(*line, name),
    }
}

/// How the arguments are written.
#[tactic(auto, using(crate::proofs::HeadLaws::heads_of_one))]
pub fn heads_of(alloc: Global, arguments: &[Argument<u32>]) -> Result<Vec<Head<'_>>, NoMemory>
    ensures { IfOk result (λ list. heads_told list.items ≡ calls.heads (arguments_of arguments.now)) }
{
    let mut list = Vec::new(alloc);
    for argument in arguments {
        list.push(head_of(argument))?;
    }
    Ok(list)
}

fn is_unnamed(h: Head<'_>) -> bool
    ensures { result ≡ calls.is_unnamed (head h.entry) }
{
    match h {
        Head::Unnamed => true,
        Head::Input(_, _) => false,
        Head::Output(_, _) => false,
    }
}

/// Whether an argument is positional.
pub fn any_unnamed(heads: &[Head<'_>]) -> bool
    ensures { result ≡ list_any calls.is_unnamed (heads_told heads.now) }
{
    for h in heads {
        if is_unnamed(*h) {
            return true;
        }
    }
    false
}

/// Whether an argument has a name.
pub fn any_named(heads: &[Head<'_>]) -> bool
    ensures { result ≡ list_any calls.is_named (heads_told heads.now) }
{
    for h in heads {
        if !is_unnamed(*h) {
            return true;
        }
    }
    false
}

/// How many arguments are positional.
#[tactic(auto, using(crate::proofs::HeadLaws::count_one))]
pub fn count_unnamed(heads: &[Head<'_>]) -> usize
    ensures { result ≡ calls.count_unnamed (heads_told heads.now) }
{
    let mut count = 0;
    for h in heads {
        if is_unnamed(*h) {
            count += 1;
        }
    }
    count
}
