//! Names, parts of places, and values at addresses.

ghost use Rattle.std.specs.Prelude.{◌≡◌, [], ◌∷◌, ◌++◌, OnOk, Some, slice_get};
ghost use Rattle.st_types.specs.declared.st_type.StType.{out-StType};
ghost use Rattle.stack_code.specs.declared.op.Op.TheVariants as op;
ghost use Rattle.code_rules.specs.Code.{fetch_code, followed_code, held_code, index_op, instance_code, keep_code, local_code, named_code, part_code, root_code, widened_code};
ghost use Rattle.code_cells.specs.declared.cell.Cell.TheVariants.{Does as does};
ghost use Rattle.codegen_tables.specs.Context.{plan_in};

use crate::pushes::does;
use code_cells::Cell;
use code_rules::LocalPlace;
use codegen_tables::{Context, field_of, size_of, variable_of};
use plc_text::NoMemory;
use st_tree::{Note, Root, Target};
use st_types::{Elem, StType};
use stack_code::Op;

/// Where the reference at an address leads.
fn emit_held(cells: &mut Vec<Cell>, line: u32) -> Result<(), NoMemory>
    ensures { OnOk result (cells.new.items ≡ cells.old.items ++ held_code line) }
{
    does(cells, Op::LoadRef, line)?;
    does(cells, Op::Deref, line)?;
    Ok(())
}

fn local_at(locals: &[LocalPlace], n: u32) -> Option<LocalPlace>
    ensures { result ≡ slice_get locals.now n }
{
    locals.get(n as usize).copied()
}

/// A local: that of an in-out leads to what it is bound to.
fn emit_at(cells: &mut Vec<Cell>, place: LocalPlace, line: u32) -> Result<(), NoMemory>
    ensures { OnOk result (cells.new.items ≡ cells.old.items ++ local_code line (Some place)) }
{
    does(cells, Op::Local(place.offset), line)?;
    if place.in_out {
        emit_held(cells, line)?;
    }
    Ok(())
}

pub fn emit_local(
    cells: &mut Vec<Cell>,
    locals: &[LocalPlace],
    n: u32,
    line: u32,
) -> Result<(), NoMemory>
    ensures { OnOk result (cells.new.items ≡ cells.old.items ++ local_code line (slice_get locals.now n)) }
{
    match local_at(locals, n) {
        Some(place) => emit_at(cells, place, line),
        None => Ok(()),
    }
}

/// What a name stands for; a method's name means the own instance.
pub fn emit_named(
    cells: &mut Vec<Cell>,
    c: &Context<'_>,
    target: &Target,
    line: u32,
) -> Result<(), NoMemory>
    ensures { OnOk result (cells.new.items ≡ cells.old.items ++ named_code (plan_in c.now) line target.now) }
{
    match target {
        Target::Local(n) => emit_local(cells, c.locals, *n, line),
        Target::Region(r) => does(cells, Op::Region(*r, 0), line),
        Target::Variable(k) => {
            let class = c.class.unwrap_or(0);
            does(cells, Op::This(variable_of(c.sizes, class, *k)), line)
        }
        Target::Method(_) => does(cells, Op::This(0), line),
        _ => Ok(()),
    }
}

/// What a place begins with. THIS and SUPER are the own instance.
pub fn emit_root(
    cells: &mut Vec<Cell>,
    c: &Context<'_>,
    root: &Root<Note>,
    line: u32,
) -> Result<(), NoMemory>
    ensures { OnOk result (cells.new.items ≡ cells.old.items ++ root_code (plan_in c.now) line root.now) }
{
    match root {
        Root::Name(a, _) => emit_named(cells, c, &a.target, line),
        Root::This(_) => does(cells, Op::This(0), line),
        Root::Super(_) => does(cells, Op::This(0), line),
    }
}

/// `^`: on an instance it is the instance.
pub fn emit_followed(cells: &mut Vec<Cell>, kind: &StType, line: u32) -> Result<(), NoMemory>
    ensures { OnOk result (cells.new.items ≡ cells.old.items ++ followed_code line kind.now) }
{
    match kind {
        StType::Instance(_) => Ok(()),
        _ => emit_held(cells, line),
    }
}

/// The instance on which a method is called: of an interface value the one that it holds.
fn emit_instance(cells: &mut Vec<Cell>, kind: &StType, line: u32) -> Result<(), NoMemory>
    ensures { OnOk result (cells.new.items ≡ cells.old.items ++ instance_code line kind.now) }
{
    match kind {
        StType::Interface(_) => emit_held(cells, line),
        _ => Ok(()),
    }
}

/// A part by its name, or the instance of a method.
pub fn emit_part(
    cells: &mut Vec<Cell>,
    c: &Context<'_>,
    kind: &StType,
    target: &Target,
    line: u32,
) -> Result<(), NoMemory>
    ensures { OnOk result (cells.new.items ≡ cells.old.items ++ part_code (plan_in c.now) line kind.now target.now) }
{
    match target {
        Target::Field(k) => does(cells, Op::Offset(field_of(kind, c.sizes, *k)), line),
        Target::Variable(k) => does(cells, Op::Offset(field_of(kind, c.sizes, *k)), line),
        Target::Method(_) => emit_instance(cells, kind, line),
        _ => Ok(()),
    }
}

/// The instruction of an index.
pub fn index_op(c: &Context<'_>, kind: &StType) -> Op
    ensures { result ≡ index_op (plan_in c.now) (out-StType kind.now) }
{
    match kind {
        StType::Array(low, high, of) => Op::Index(*low, *high, size_of(of.get(), c.sizes)),
        _ => Op::Drop,
    }
}

/// The value at the address on top; one that no word holds is copied to an offset of the locals that is free.
pub fn emit_fetch(
    cells: &mut Vec<Cell>,
    c: &Context<'_>,
    kind: &StType,
    free: u32,
    line: u32,
) -> Result<(), NoMemory>
    ensures { OnOk result (cells.new.items ≡ cells.old.items ++ fetch_code (plan_in c.now) line free kind.now) }
{
    match kind {
        StType::Elementary(e) => does(cells, Op::Load(*e), line),
        StType::Enumeration(_) => does(cells, Op::Load(Elem::Udint), line),
        StType::Reference(_) => does(cells, Op::LoadRef, line),
        StType::Interface(_) => does(cells, Op::LoadRef, line),
        StType::Instance(_) => Ok(()),
        StType::Structure(_) => emit_copied(cells, size_of(kind, c.sizes), free, line),
        StType::Array(_, _, _) => emit_copied(cells, size_of(kind, c.sizes), free, line),
    }
}

/// The same for a place of a type, where a number of a kind that widens to it stands.
pub fn emit_widened(
    cells: &mut Vec<Cell>,
    c: &Context<'_>,
    kind: &StType,
    stands: Elem,
    free: u32,
    line: u32,
) -> Result<(), NoMemory>
    ensures { OnOk result (cells.new.items ≡ cells.old.items ++ widened_code (plan_in c.now) line free kind.now stands) }
{
    match kind {
        StType::Elementary(_) => does(cells, Op::Load(stands), line),
        StType::Enumeration(_) => emit_fetch(cells, c, kind, free, line),
        StType::Reference(_) => emit_fetch(cells, c, kind, free, line),
        StType::Interface(_) => emit_fetch(cells, c, kind, free, line),
        StType::Instance(_) => emit_fetch(cells, c, kind, free, line),
        StType::Structure(_) => emit_fetch(cells, c, kind, free, line),
        StType::Array(_, _, _) => emit_fetch(cells, c, kind, free, line),
    }
}

/// So many bytes to an offset of the locals.
fn emit_copied(cells: &mut Vec<Cell>, size: u32, free: u32, line: u32) -> Result<(), NoMemory>
    ensures { OnOk result (cells.new.items ≡ cells.old.items ++ does (op.Local free) line ∷ does (op.Copy size) line ∷ does (op.Local free) line ∷ []) }
{
    does(cells, Op::Local(free), line)?;
    does(cells, Op::Copy(size), line)?;
    does(cells, Op::Local(free), line)?;
    Ok(())
}

/// Keeps the value below the address on top there.
pub fn emit_keep(
    cells: &mut Vec<Cell>,
    c: &Context<'_>,
    kind: &StType,
    line: u32,
) -> Result<(), NoMemory>
    ensures { OnOk result (cells.new.items ≡ cells.old.items ++ keep_code (plan_in c.now) line kind.now) }
{
    match kind {
        StType::Elementary(e) => does(cells, Op::Store(*e), line),
        StType::Enumeration(_) => does(cells, Op::Store(Elem::Udint), line),
        StType::Reference(_) => does(cells, Op::StoreRef, line),
        StType::Interface(_) => does(cells, Op::StoreRef, line),
        StType::Instance(_) => does(cells, Op::Copy(size_of(kind, c.sizes)), line),
        StType::Structure(_) => does(cells, Op::Copy(size_of(kind, c.sizes)), line),
        StType::Array(_, _, _) => does(cells, Op::Copy(size_of(kind, c.sizes)), line),
    }
}
