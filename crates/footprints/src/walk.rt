//! The regions that the texts of a task bring in.

ghost use Rattle.std.specs.Prelude.{◌≡◌, ℕ, true, option_map, IfOk, OnOk};
ghost use Rattle.st_values.specs.View.{program_of};
ghost use Rattle.st_meaning.specs.Enter.{programs_of};
ghost use Rattle.body_uses.specs.Uses.{use_of, uses_of, owner_of, Knows};
ghost use Rattle.footprints.specs.Private.Puts.{Puts, Via};
ghost use Rattle.footprints.specs.Private.Holders.{Held};
ghost use Rattle.footprints.specs.Private.Tables.{AreTables};
ghost use Rattle.footprints.specs.Private.Walk as words;

use crate::marks::{Marks, put, put_all, put_classes};
use crate::reached_routines::{Family, family_of, programs_of, reached_routines};
use crate::tables::Tables;
use body_uses::{Callables, Owner, Use, body_uses};
use plc_text::NoMemory;
use program_tables::RoutineId;
use st_types::StType;
use std::alloc::Global;
use std::collections::{BTreeSet, HashSet};

/// What is asked for.
#[derive(Clone, Copy)]
pub enum Part {
    Touched,
    Altered,
}

/// The regions so far, and the classes and interfaces whose regions are among them.
#[derive(Drop)]
struct Walk {
    marks: Marks,
    followed: HashSet<Family>,
}

/// Puts the regions that hold instances which conform to a type into the set, once for each type.
fn put_kind(walk: &mut Walk, t: &Tables<'_>, kind: &StType) -> Result<(), NoMemory>
    requires tables { AreTables t.now }
    requires followed { words.AreFollowed (program_of t.now.program.now) t.now.holders.items walk.old.followed walk.old.marks.keys }
    ensures puts { OnOk result (Puts (Held (program_of t.now.program.now) t.now.holders.items kind.now) walk.old.marks.keys walk.new.marks.keys) }
    ensures followed { OnOk result (words.AreFollowed (program_of t.now.program.now) t.now.holders.items walk.new.followed walk.new.marks.keys) }
{
    match family_of(kind) {
        Some(family) => {
            if walk.followed.insert(family)? {
                put_classes(&mut walk.marks, t.holders.as_slice(), t.conformers.of(kind))?;
                Ok(())
            } else {
                Ok(())
            }
        }
        None => Ok(()),
    }
}

/// Whose regions a use brings in.
fn owner_in<'p>(part: Part, one: Use<'p>) -> Option<Owner<'p>>
    ensures { option_map owner_of result ≡ words.owner_in part (use_of one.entry) }
{
    match part {
        Part::Touched => match one {
            Use::Names(region) => Some(Owner::Region(region)),
            Use::Follows(kind) => Some(Owner::Instances(kind)),
            Use::Calls(_) => None,
            Use::Changes(_) => None,
        },
        Part::Altered => match one {
            Use::Names(_) => None,
            Use::Follows(_) => None,
            Use::Calls(_) => None,
            Use::Changes(owner) => Some(owner),
        },
    }
}

fn put_owner(walk: &mut Walk, t: &Tables<'_>, owner: Option<Owner<'_>>) -> Result<(), NoMemory>
    requires tables { AreTables t.now }
    requires followed { words.AreFollowed (program_of t.now.program.now) t.now.holders.items walk.old.followed walk.old.marks.keys }
    ensures puts { OnOk result (Puts (words.InOwnerIf (program_of t.now.program.now) t.now.holders.items (option_map owner_of owner.entry)) walk.old.marks.keys walk.new.marks.keys) }
    ensures followed { OnOk result (words.AreFollowed (program_of t.now.program.now) t.now.holders.items walk.new.followed walk.new.marks.keys) }
{
    match owner {
        Some(owner) => match owner {
            Owner::Region(region) => {
                put(&mut walk.marks, region)?;
                Ok(())
            }
            Owner::Instances(kind) => {
                put_kind(walk, t, kind)?;
                Ok(())
            }
        },
        None => Ok(()),
    }
}

/// What tells the parameters of what is called.
fn callables<'a, 'p>(t: &'a Tables<'p>) -> Callables<'a, 'p>
    requires { AreTables t.now }
    ensures known { Knows result }
    ensures same { result.tables.now ≡ t.now.program.now }
{
    Callables {
        tables: &t.tables,
        routines: &t.routines,
        signatures: &t.signatures,
    }
}

/// Puts what uses bring in into the set.
fn put_uses(walk: &mut Walk, t: &Tables<'_>, part: Part, uses: &[Use<'_>]) -> Result<(), NoMemory>
    requires tables { AreTables t.now }
    requires followed { words.AreFollowed (program_of t.now.program.now) t.now.holders.items walk.old.followed walk.old.marks.keys }
    ensures puts { OnOk result (Puts (Via (uses_of uses.now) (words.InUse (program_of t.now.program.now) t.now.holders.items part)) walk.old.marks.keys walk.new.marks.keys) }
    ensures followed { OnOk result (words.AreFollowed (program_of t.now.program.now) t.now.holders.items walk.new.followed walk.new.marks.keys) }
{
    for one in uses {
        put_owner(walk, t, owner_in(part, *one))?;
    }
    Ok(())
}

/// Puts what the text of a routine brings in into the set.
fn put_text(
    alloc: Global,
    walk: &mut Walk,
    t: &Tables<'_>,
    part: Part,
    id: RoutineId,
) -> Result<(), NoMemory>
    requires tables { AreTables t.now }
    requires followed { words.AreFollowed (program_of t.now.program.now) t.now.holders.items walk.old.followed walk.old.marks.keys }
    ensures puts { OnOk result (Puts (words.InRoutine t.now.program.now t.now.holders.items part id) walk.old.marks.keys walk.new.marks.keys) }
    ensures followed { OnOk result (words.AreFollowed (program_of t.now.program.now) t.now.holders.items walk.new.followed walk.new.marks.keys) }
{
    let uses = body_uses(alloc, callables(t), t.program, id)?;
    put_uses(walk, t, part, uses.as_slice())?;
    Ok(())
}

/// Puts what the texts of routines bring in into the set.
fn put_texts(
    alloc: Global,
    walk: &mut Walk,
    t: &Tables<'_>,
    part: Part,
    ids: &[RoutineId],
) -> Result<(), NoMemory>
    requires tables { AreTables t.now }
    requires followed { words.AreFollowed (program_of t.now.program.now) t.now.holders.items walk.old.followed walk.old.marks.keys }
    ensures { OnOk result (Puts (Via ids.now (words.InRoutine t.now.program.now t.now.holders.items part)) walk.old.marks.keys walk.new.marks.keys) }
{
    let mut left = ids;
    'ids: while let Some((id, behind)) = left.split_first() {
        put_text(alloc, walk, t, part, *id)?;
        left = behind;
    }
    Ok(())
}

/// The programs of a task, and the regions that the texts which it reaches bring in.
pub fn collect(alloc: Global, t: &Tables<'_>, part: Part, task: u32) -> Result<Marks, NoMemory>
    requires { AreTables t.now }
    ensures { IfOk result (λ marks. words.AreCollected (program_of t.now.program.now) t.now.holders.items part task marks.keys) }
{
    let mut walk = Walk {
        marks: BTreeSet::new(alloc),
        followed: HashSet::new(alloc),
    };
    put_all(&mut walk.marks, programs_of(t.program, task))?;
    let ids = reached_routines(alloc, callables(t), t.program, &t.conformers, task)?;
    put_texts(alloc, &mut walk, t, part, &ids)?;
    Ok(walk.marks)
}
