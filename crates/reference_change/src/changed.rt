//! The change of a program with its store.

ghost use Rattle.std.specs.Prelude.{◌≡◌, IfOk};
ghost use Rattle.st_change.specs.Change as words;
ghost use Rattle.st_values.specs.View.{program_of};
ghost use Rattle.value_trees.specs.Value.{members_of};
ghost use Rattle.shape_trees.specs.Unfolding.{AreShapes};
ghost use Rattle.change_names.specs.Names.{AreNames};
ghost use Rattle.change_names.specs.Side.{IsSide};
ghost use Rattle.change_names.specs.change_paths.Change.{IsChange};
ghost use Rattle.change_names.specs.change_paths.Numbers.{AreFieldNumbers};
ghost use Rattle.change_kept.specs.Kept.{AreKept};
ghost use Rattle.reference_tasks.specs.Loaded.{IsLoaded};
ghost use Rattle.reference_change.specs.Changed.{changed};
ghost use Rattle.reference_change.specs.Private.Phases.{StoppedAs, behind_exits};
ghost use Rattle.reference_change.specs.Private.Turn.{IsTurn, new_of, old_of};

use crate::phases::{come, fresh_store, leave};
use crate::turn::Turn;
use change_kept::kept_regions;
use change_names::{Change, ChangeNames, FieldNumbers, Side};
use plc_text::{NoMemory, Series};
use reference_hooks::{Halt, Stopped};
use reference_tasks::Loaded;
use run_state::{Log, RunState, copy_store};
use shape_trees::{Shapes, region_shapes};
use std::alloc::Global;
use value_trees::Member;

/// How a change ended.
#[derive(Drop)]
pub enum Changed {
    /// With this store of the new program, and so many ticks left.
    Ran { store: Series<Member>, ticks: u32 },
    /// At a fault in a hook: the old program goes on with its store.
    Stopped(Stopped),
}

/// The ticks of all hooks of a change.
const ALL_TICKS: u32 = 100_000;

/// The state of a run in which no call is open.
fn begin(alloc: Global, store: Series<Member>, ticks: u32) -> RunState
    ensures store { result.store ≡ store }
    ensures ticks { result.ticks ≡ ticks }
{
    RunState {
        store,
        frames: Series::new(alloc),
        ticks,
        moment: 0,
        undo: Log::new(alloc),
    }
}

/// How a change ended whose hooks stopped.
fn refused(halt: Halt) -> Result<Changed, NoMemory>
    ensures { IfOk result (λ s. StoppedAs halt (changed s)) }
{
    match halt {
        Halt::Stopped(stopped) => Ok(Changed::Stopped(stopped)),
        Halt::NoMemory => Err(NoMemory),
    }
}

/// All behind the exits.
fn enter_new(t: &Turn<'_, '_, '_, '_, '_, '_, '_>, before: &RunState) -> Result<Changed, NoMemory>
    requires { IsTurn t.now }
    ensures { IfOk result (λ s. changed s ≡ behind_exits (old_of t.now) (new_of t.now) (members_of before.now.store) before.now.ticks) }
{
    let store = fresh_store(t, &before.store)?;
    let mut m = begin(t.change.alloc, store, before.ticks);
    match come(t, &before.store, &mut m) {
        Ok(()) => Ok(Changed::Ran {
            store: m.store,
            ticks: m.ticks,
        }),
        Err(halt) => refused(halt),
    }
}

/// The exits on a copy of the store, and all behind them.
fn change_of(
    t: &Turn<'_, '_, '_, '_, '_, '_, '_>,
    store: &Series<Member>,
) -> Result<Changed, NoMemory>
    requires { IsTurn t.now }
    ensures { IfOk result (λ s. changed s ≡ words.change (old_of t.now) (new_of t.now) (members_of store.now)) }
{
    let copy = copy_store(t.change.alloc, store)?;
    let mut before = begin(t.change.alloc, copy, ALL_TICKS);
    match leave(t, &mut before) {
        Ok(()) => enter_new(t, &before),
        Err(halt) => refused(halt),
    }
}

/// The same, where it is known which regions are kept.
fn change_where(
    c: &Change<'_, '_>,
    kept: &[bool],
    old: &Loaded<'_>,
    new: &Loaded<'_>,
    store: &Series<Member>,
) -> Result<Changed, NoMemory>
    requires change { IsChange c.now }
    requires are_kept { AreKept (program_of c.now.old.program.now) (program_of c.now.new.program.now) kept.now }
    requires old_loaded { IsLoaded old.now }
    requires new_loaded { IsLoaded new.now }
    requires old_program { old.now.tables.now ≡ c.now.old.program.now }
    requires new_program { new.now.tables.now ≡ c.now.new.program.now }
    ensures { IfOk result (λ s. changed s ≡ words.change (program_of c.now.old.program.now) (program_of c.now.new.program.now) (members_of store.now)) }
{
    let t = Turn {
        change: *c,
        kept,
        old,
        new,
    };
    change_of(&t, store)
}

/// The same, where all tables are made.
fn change_with(
    c: &Change<'_, '_>,
    old: &Loaded<'_>,
    new: &Loaded<'_>,
    store: &Series<Member>,
) -> Result<Changed, NoMemory>
    requires change { IsChange c.now }
    requires old_loaded { IsLoaded old.now }
    requires new_loaded { IsLoaded new.now }
    requires old_program { old.now.tables.now ≡ c.now.old.program.now }
    requires new_program { new.now.tables.now ≡ c.now.new.program.now }
    ensures { IfOk result (λ s. changed s ≡ words.change (program_of c.now.old.program.now) (program_of c.now.new.program.now) (members_of store.now)) }
{
    let kept = kept_regions(c)?;
    change_where(c, &kept, old, new, store)
}

/// Where the names, the shapes and the places of fields are made.
fn change_by<'p>(
    old: &Loaded<'_>,
    new: &Loaded<'_>,
    old_side: &Side<'_>,
    new_side: &Side<'_>,
    names: &ChangeNames<'_>,
    old_shapes: &Shapes<'p>,
    new_shapes: &Shapes<'p>,
    old_numbers: &FieldNumbers,
    new_numbers: &FieldNumbers,
    store: &Series<Member>,
) -> Result<Changed, NoMemory>
    requires old_loaded { IsLoaded old.now }
    requires new_loaded { IsLoaded new.now }
    requires old_side { IsSide old_side.now }
    requires new_side { IsSide new_side.now }
    requires old_program { old.now.tables.now ≡ old_side.now.program.now }
    requires new_program { new.now.tables.now ≡ new_side.now.program.now }
    requires names { AreNames (program_of old_side.now.program.now) (program_of new_side.now.program.now) names.now }
    requires old_shapes { AreShapes (program_of old_side.now.program.now) old_shapes.now.list }
    requires new_shapes { AreShapes (program_of new_side.now.program.now) new_shapes.now.list }
    requires old_numbers { AreFieldNumbers (program_of old_side.now.program.now) old_numbers.now }
    requires new_numbers { AreFieldNumbers (program_of new_side.now.program.now) new_numbers.now }
    ensures { IfOk result (λ s. changed s ≡ words.change (program_of old_side.now.program.now) (program_of new_side.now.program.now) (members_of store.now)) }
{
    let c = Change {
        alloc: new.alloc,
        old: *old_side,
        new: *new_side,
        old_shapes,
        new_shapes,
        names,
        old_numbers,
        new_numbers,
    };
    change_with(&c, old, new, store)
}

/// A program with the tables of it that a change looks into.
fn side_of<'p>(on: &Loaded<'p>) -> Side<'p>
    requires { IsLoaded on.now }
    ensures side { IsSide result }
    ensures program { on.now.tables.now ≡ result.program.now }
{
    Side {
        program: on.program,
        tables: on.tables,
        members: on.members,
    }
}

/// The same, where what is lent of both programs is lent as long.
fn change_within<'p>(
    old: &Loaded<'p>,
    new: &Loaded<'p>,
    store: &Series<Member>,
) -> Result<Changed, NoMemory>
    requires old_loaded { IsLoaded old.now }
    requires new_loaded { IsLoaded new.now }
    ensures { IfOk result (λ s. changed s ≡ words.change (program_of old.now.tables.now) (program_of new.now.tables.now) (members_of store.now)) }
{
    let old_side = side_of(old);
    let new_side = side_of(new);
    let names = ChangeNames::build(new.alloc, &old_side, &new_side)?;
    let old_shapes = region_shapes(new.alloc, old_side.program, old_side.members)?;
    let new_shapes = region_shapes(new.alloc, new_side.program, new_side.members)?;
    let old_numbers = FieldNumbers::build(new.alloc, &old_side)?;
    let new_numbers = FieldNumbers::build(new.alloc, &new_side)?;
    let came = change_by(
        old,
        new,
        &old_side,
        &new_side,
        &names,
        &old_shapes,
        &new_shapes,
        &old_numbers,
        &new_numbers,
        store,
    )?;
    Ok(came)
}

/// Changes a program that runs to another one: exits in the old program, a fresh store with the regions that are kept, inits in the new
/// program, the copy into the other regions, and reinits. All hooks share 100,000 ticks. The store is only read, so where a hook stops at a
/// fault or memory is wanting, the old program goes on with it. Nothing bounds the machine's stack in the hooks.
pub fn change(
    old: &Loaded<'_>,
    new: &Loaded<'_>,
    store: &Series<Member>,
) -> Result<Changed, NoMemory>
    requires old_loaded { IsLoaded old.now }
    requires new_loaded { IsLoaded new.now }
    ensures { IfOk result (λ s. changed s ≡ words.change (program_of old.now.tables.now) (program_of new.now.tables.now) (members_of store.now)) }
{
    change_within(old, new, store)
}
