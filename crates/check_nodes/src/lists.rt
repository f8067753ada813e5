//! Indices and arguments, one after the other.

ghost use Rattle.std.specs.Prelude.{◌≡◌, IfOk};
ghost use Rattle.check_nodes.specs.Lists.{NoIndex, NoArgument, AddsIndex, AddsArgument};

use crate::found::Checked;
use plc_text::{Code, Items, NoMemory};
use st_operators::index_fault;
use st_rules::earlier;
use st_tree::{Argument, Expr, Note};
use std::alloc::Global;

/// The least rule that indices break so far, and their typed trees.
#[derive(Drop)]
pub struct Indices {
    pub least: Option<(Code, u32)>,
    pub expressions: Items<Expr<Note>>,
}

/// No indices yet.
pub fn no_index(alloc: Global) -> Indices
    ensures { NoIndex result }
{
    Indices {
        least: None,
        expressions: Items::new(alloc),
    }
}

/// The indices with one more, which begins at this line.
pub fn with_index(so_far: Indices, line: u32, one: Checked) -> Result<Indices, NoMemory>
    ensures { IfOk result (λ x. AddsIndex x so_far line one) }
{
    let own = index_fault(line, &one.told);
    let Indices {
        least,
        mut expressions,
    } = so_far;
    let least = earlier(earlier(least, one.least), own);
    expressions.push(one.into_tree())?;
    Ok(Indices { least, expressions })
}

/// The least rule that arguments break so far, and their typed trees.
#[derive(Drop)]
pub struct Arguments {
    pub least: Option<(Code, u32)>,
    pub arguments: Items<Argument<Note>>,
}

/// One argument: the least rule that it breaks, and its typed tree.
pub struct CheckedArgument {
    pub least: Option<(Code, u32)>,
    pub argument: Argument<Note>,
}

// By hand, so that a drop is one call: a derived one is written out wherever a `?` may need it.
impl Drop for CheckedArgument {
    fn drop(self) {
        drop(self.into_argument());
    }
}

impl CheckedArgument {
    fn into_argument(self) -> Argument<Note>
        ensures { result ≡ self.argument }
    {
        let CheckedArgument { least: _, argument } = self;
        argument
    }
}

/// No arguments yet.
pub fn no_argument(alloc: Global) -> Arguments
    ensures { NoArgument result }
{
    Arguments {
        least: None,
        arguments: Items::new(alloc),
    }
}

/// The arguments with one more.
pub fn with_argument(so_far: Arguments, one: CheckedArgument) -> Result<Arguments, NoMemory>
    ensures { IfOk result (λ x. AddsArgument x so_far one) }
{
    let Arguments {
        least,
        mut arguments,
    } = so_far;
    let least = earlier(least, one.least);
    arguments.push(one.into_argument())?;
    Ok(Arguments { least, arguments })
}
