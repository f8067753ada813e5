//! The lines of regions and tasks, and the listing behind them.

ghost use Rattle.std.specs.Prelude.{◌≡◌, ◌++◌, IfOk, OnOk, map};
ghost use Rattle.plc_text.specs.Lines.{ended, text_of};
ghost use Rattle.st_values.specs.View.{program_of, region_of};
ghost use Rattle.shape_trees.specs.Unfolding.{AreShapes, shape_in};
ghost use Rattle.list_report.specs.Listed as w;

use crate::values::value_count;
use plc_text::{NoMemory, Text};
use shape_trees::{Shapes, region_shape};
use st_tree::{Program, RegionDecl, TaskDecl};
use stack_code::{ValidCode, listing};
use std::alloc::Global;

/// How many values a region has.
fn values_in(shapes: &Shapes<'_>, region: u32) -> Result<u64, NoMemory>
    ensures { IfOk result (λ n. n ≡ w.values_at (shape_in shapes.now.list region)) }
{
    match region_shape(shapes, region) {
        Some(shape) => value_count(shape),
        None => Ok(0),
    }
}

fn sort_word(is_program: bool) -> &'static str
    ensures { result.now ≡ w.sort_word is_program }
{
    if is_program { "program" } else { "global" }
}

fn push_region(text: &mut Text, decl: &RegionDecl, values: u64) -> Result<(), NoMemory>
    ensures { OnOk result (text.new ≡ text.old ++ ended (w.region_line (region_of decl.now) values)) }
{
    text.push_str("region ")?;
    text.push_str(decl.name.as_str())?;
    text.push_str(" ")?;
    text.push_str(sort_word(decl.program))?;
    text.push_str(" ")?;
    text.push_decimal(values)?;
    text.push_str("\n")
}

#[tactic(auto, using(crate::proofs::LineLaws::regions_next, crate::proofs::LineLaws::regions_end))]
fn push_regions(text: &mut Text, program: &Program, shapes: &Shapes<'_>) -> Result<(), NoMemory>
    requires { AreShapes (program_of program.now) shapes.now.list }
    ensures { OnOk result (text.new ≡ text.old ++ text_of (w.region_lines (program_of program.now) 0 (map region_of program.now.regions))) }
{
    let mut number: u32 = 0;
    let mut left = program.regions.as_slice();
    'regions: while let Some((decl, behind)) = left.split_first() {
        let values = values_in(shapes, number)?;
        push_region(text, decl, values)?;
        let Some(next) = number.checked_add(1) else {
            return Err(NoMemory);
        };
        number = next;
        left = behind;
    }
    Ok(())
}

/// A number, or a dash where there is none.
fn push_or_dash(text: &mut Text, number: Option<u32>) -> Result<(), NoMemory>
    ensures { OnOk result (text.new ≡ text.old ++ w.or_dash number) }
{
    match number {
        Some(n) => text.push_decimal(u64::from(n)),
        None => text.push_str("-"),
    }
}

/// The name of a region.
fn push_name(text: &mut Text, program: &Program, region: u32) -> Result<(), NoMemory>
    ensures { OnOk result (text.new ≡ text.old ++ w.name_at (program_of program.now) region) }
{
    match program.regions.get(region as usize) {
        Some(decl) => text.push_str(decl.name.as_str()),
        None => Ok(()),
    }
}

/// The names of regions, each behind a space.
#[tactic(auto, using(crate::proofs::LineLaws::names_next, crate::proofs::LineLaws::names_end))]
fn push_names(text: &mut Text, program: &Program, regions: &[u32]) -> Result<(), NoMemory>
    ensures { OnOk result (text.new ≡ text.old ++ w.names_at (program_of program.now) regions.now) }
{
    let mut left = regions;
    'regions: while let Some((region, behind)) = left.split_first() {
        text.push_str(" ")?;
        push_name(text, program, *region)?;
        left = behind;
    }
    Ok(())
}

fn push_task(
    text: &mut Text,
    program: &Program,
    task: &TaskDecl,
    footprint: &[u32],
) -> Result<(), NoMemory>
    ensures { OnOk result (text.new ≡ text.old ++ ended (w.task_line (program_of program.now) task.now footprint.now)) }
{
    text.push_str("task ")?;
    text.push_str(task.name.as_str())?;
    text.push_str(" interval ")?;
    push_or_dash(text, task.interval)?;
    text.push_str(" priority ")?;
    push_or_dash(text, task.priority)?;
    text.push_str(" footprint")?;
    push_names(text, program, footprint)?;
    text.push_str("\n")
}

#[tactic(auto, using(crate::proofs::LineLaws::tasks_next, crate::proofs::LineLaws::tasks_end, crate::proofs::LineLaws::tasks_short))]
fn push_tasks(text: &mut Text, program: &Program, footprints: &[Vec<u32>]) -> Result<(), NoMemory>
    ensures { OnOk result (text.new ≡ text.old ++ text_of (w.task_lines (program_of program.now) program.now.tasks (w.lists footprints.now))) }
{
    let mut left = program.tasks.as_slice();
    let mut others = footprints;
    'tasks: while let Some((task, behind)) = left.split_first() {
        let Some((footprint, more)) = others.split_first() else {
            return Ok(());
        };
        push_task(text, program, task, footprint.as_slice())?;
        left = behind;
        others = more;
    }
    Ok(())
}

/// What `list` writes of a program with these shapes of its regions, these footprints of its tasks, and this code: a line for each region,
/// one for each task, `code`, and the listing.
pub fn list_text(
    alloc: Global,
    program: &Program,
    shapes: &Shapes<'_>,
    footprints: &[Vec<u32>],
    code: &ValidCode,
) -> Result<Text, NoMemory>
    requires { AreShapes (program_of program.now) shapes.now.list }
    ensures { IfOk result (λ text. text ≡ w.list_text (program_of program.now) (w.lists footprints.now) code.now) }
{
    let mut text = Text::new(alloc);
    push_regions(&mut text, program, shapes)?;
    push_tasks(&mut text, program, footprints)?;
    text.push_str("code\n")?;
    let listed = listing(alloc, code)?;
    text.push_str(listed.as_str())?;
    Ok(text)
}
