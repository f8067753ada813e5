//! The walk from a place of one program to that of the other.

ghost use Rattle.std.specs.Prelude.{◌≡◌, true, IfOk, IfSome, None, Some, if◌then◌else◌, option_map};
ghost use Rattle.st_values.specs.View.{program_of};
ghost use Rattle.shape_trees.specs.Numbers.{is_numbered};
ghost use Rattle.shape_trees.specs.Shape.{shape_of};
ghost use Rattle.change_names.specs.change_paths.Change.{IsChange};
ghost use Rattle.change_names.specs.change_paths.Private.Programs.{other, program_at};
ghost use Rattle.change_names.specs.change_paths.Private.Walk as words;
ghost use Rattle.change_names.specs.change_paths.Private.Walk.{stepped_of};

use crate::change_paths::change::Change;
use crate::change_paths::turns::turned;
use crate::change_paths::ways::{step_of, way_of};
use crate::change_paths::which::{Which, other};
use plc_text::NoMemory;
use shape_trees::{Shape, part};
use st_tree::{Step, Steps};

/// A step there, and the shapes of both places behind it.
#[derive(Clone, Copy)]
pub struct Stepped<'a, 'p> {
    pub step: Step,
    pub from: &'a Shape<'p>,
    pub there: &'a Shape<'p>,
}

/// A step in the program `to`, from one in the other program.
fn step_there<'a, 'p>(
    c: &Change<'_, '_>,
    to: Which,
    from: &'a Shape<'p>,
    there: &'a Shape<'p>,
    step: &Step,
) -> Option<Stepped<'a, 'p>>
    requires is_change { IsChange c.now }
    requires from_numbered { is_numbered (program_at c.now (other to)) from.now ≡ true }
    requires there_numbered { is_numbered (program_at c.now to) there.now ≡ true }
    ensures step { option_map stepped_of result ≡ words.step_there (program_of c.now.old.program.now) (program_of c.now.new.program.now) to (shape_of from.now) (shape_of there.now) step.now }
    ensures from_numbered { IfSome result (λ s. is_numbered (program_at c.now (other to)) s.from.now ≡ true) }
    ensures there_numbered { IfSome result (λ s. is_numbered (program_at c.now to) s.there.now ≡ true) }
{
    let way = way_of(from, step)?;
    let first = step_of(c, other(to), from, &way)?;
    let inner = part(from, &first)?;
    let way_there = turned(c, to, from, there, &way)?;
    let step = step_of(c, to, there, &way_there)?;
    let inner_there = part(there, &step)?;
    Some(Stepped {
        step,
        from: inner,
        there: inner_there,
    })
}

/// Adds the steps in the program `to`, and says whether there are as many.
fn push_steps<'a, 'p>(
    c: &Change<'_, '_>,
    to: Which,
    from: &'a Shape<'p>,
    there: &'a Shape<'p>,
    steps: &[Step],
    out: &mut Steps,
) -> Result<bool, NoMemory>
    requires is_change { IsChange c.now }
    requires from_numbered { is_numbered (program_at c.now (other to)) from.now ≡ true }
    requires there_numbered { is_numbered (program_at c.now to) there.now ≡ true }
    ensures { IfOk result (λ whole. (if whole then Some out.new else None) ≡ words.behind out.old (words.steps_there (program_of c.now.old.program.now) (program_of c.now.new.program.now) to (shape_of from.now) (shape_of there.now) steps.now)) }
{
    match steps {
        [] => Ok(true),
        [step, rest @ ..] => match step_there(c, to, from, there, step) {
            Some(next) => {
                out.push(next.step)?;
                push_steps(c, to, next.from, next.there, rest, out)
            }
            None => Ok(false),
        },
    }
}

/// The steps in the program `to`.
pub fn steps_there<'a, 'p>(
    c: &Change<'_, '_>,
    to: Which,
    from: &'a Shape<'p>,
    there: &'a Shape<'p>,
    steps: &[Step],
) -> Result<Option<Steps>, NoMemory>
    requires is_change { IsChange c.now }
    requires from_numbered { is_numbered (program_at c.now (other to)) from.now ≡ true }
    requires there_numbered { is_numbered (program_at c.now to) there.now ≡ true }
    ensures { IfOk result (λ found. found ≡ words.steps_there (program_of c.now.old.program.now) (program_of c.now.new.program.now) to (shape_of from.now) (shape_of there.now) steps.now) }
{
    let mut out = Steps::new(c.alloc);
    let whole = push_steps(c, to, from, there, steps, &mut out)?;
    if whole { Ok(Some(out)) } else { Ok(None) }
}
