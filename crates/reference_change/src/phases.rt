//! The phases of a change.

ghost use Rattle.std.specs.Prelude.{◌≡◌, IfOk, map, true};
ghost use Rattle.st_change.specs.Change as words;
ghost use Rattle.st_change.specs.Hook.{run_hooks};
ghost use Rattle.st_values.specs.Initial as initial;
ghost use Rattle.value_trees.specs.Value.{members_of};
ghost use Rattle.reference_hooks.specs.Hooks.{RanAs, member_of};
ghost use Rattle.reference_hooks.specs.Tables.{AreHooks};
ghost use Rattle.reference_change.specs.Private.Phases.{behind_inits, entered};
ghost use Rattle.reference_change.specs.Private.Turn.{IsTurn, new_of, old_of};

use crate::hooks::{run_exits, run_inits, run_reinits};
use crate::turn::Turn;
use change_carry::carry_store;
use change_kept::{coming, leaving};
use initial_trees::initial_store;
use plc_text::{NoMemory, Series};
use reference_hooks::{Halt, HookTables, Instance};
use run_state::RunState;
use value_trees::Member;

/// The exits of all that leaves, with the hooks of the old program.
fn exit_all(
    t: &Turn<'_, '_, '_, '_, '_, '_, '_>,
    hooks: &HookTables,
    m: &mut RunState,
) -> Result<(), Halt>
    requires turn { IsTurn t.now }
    requires tables { AreHooks t.now.change.old.program.now hooks.now }
    ensures { RanAs result (run_hooks (old_of t.now) (words.exits (old_of t.now) (new_of t.now) (words.leaving (old_of t.now) (new_of t.now))) (members_of m.old.store) m.old.ticks) m.new }
{
    let Ok(instances) = leaving(&t.change, t.kept) else {
        return Err(Halt::NoMemory);
    };
    run_exits(t, hooks, m, &instances)
}

/// The exits of all that leaves.
pub fn leave(t: &Turn<'_, '_, '_, '_, '_, '_, '_>, m: &mut RunState) -> Result<(), Halt>
    requires { IsTurn t.now }
    ensures { RanAs result (run_hooks (old_of t.now) (words.exits (old_of t.now) (new_of t.now) (words.leaving (old_of t.now) (new_of t.now))) (members_of m.old.store) m.old.ticks) m.new }
{
    let Ok(hooks) = HookTables::build(t.change.alloc, t.change.old.program) else {
        return Err(Halt::NoMemory);
    };
    exit_all(t, &hooks, m)
}

/// A fresh store of the new program, into which the regions that are kept are carried.
pub fn fresh_store(
    t: &Turn<'_, '_, '_, '_, '_, '_, '_>,
    before: &Series<Member>,
) -> Result<Series<Member>, NoMemory>
    requires { IsTurn t.now }
    ensures { IfOk result (λ store. members_of store ≡ words.carry_store (old_of t.now) (new_of t.now) true (members_of before.now) (initial.initial_store (new_of t.now))) }
{
    let mut store = initial_store(t.change.alloc, t.change.new.program)?;
    carry_store(&t.change, t.kept, true, before, &mut store)?;
    Ok(store)
}

/// The copy into the regions that are not kept, and the reinits of what came.
fn copy_and_reinit(
    t: &Turn<'_, '_, '_, '_, '_, '_, '_>,
    hooks: &HookTables,
    instances: &[Instance],
    before: &Series<Member>,
    m: &mut RunState,
) -> Result<(), Halt>
    requires turn { IsTurn t.now }
    requires tables { AreHooks t.now.change.new.program.now hooks.now }
    requires are_coming { map (member_of (new_of t.now)) instances.now ≡ words.coming (old_of t.now) (new_of t.now) }
    ensures { RanAs result (behind_inits (old_of t.now) (new_of t.now) (members_of before.now) (members_of m.old.store) m.old.ticks) m.new }
{
    let Ok(()) = carry_store(&t.change, t.kept, false, before, &mut m.store) else {
        return Err(Halt::NoMemory);
    };
    run_reinits(t, hooks, m, instances)
}

/// The inits of what comes, and all behind them.
fn init_and_copy(
    t: &Turn<'_, '_, '_, '_, '_, '_, '_>,
    hooks: &HookTables,
    instances: &[Instance],
    before: &Series<Member>,
    m: &mut RunState,
) -> Result<(), Halt>
    requires turn { IsTurn t.now }
    requires tables { AreHooks t.now.change.new.program.now hooks.now }
    requires are_coming { map (member_of (new_of t.now)) instances.now ≡ words.coming (old_of t.now) (new_of t.now) }
    ensures { RanAs result (entered (old_of t.now) (new_of t.now) (members_of before.now) (members_of m.old.store) m.old.ticks) m.new }
{
    match run_inits(t, hooks, m, instances) {
        Ok(()) => copy_and_reinit(t, hooks, instances, before, m),
        Err(halt) => Err(halt),
    }
}

/// The same, with the hooks of the new program.
fn come_with(
    t: &Turn<'_, '_, '_, '_, '_, '_, '_>,
    hooks: &HookTables,
    before: &Series<Member>,
    m: &mut RunState,
) -> Result<(), Halt>
    requires turn { IsTurn t.now }
    requires tables { AreHooks t.now.change.new.program.now hooks.now }
    ensures { RanAs result (entered (old_of t.now) (new_of t.now) (members_of before.now) (members_of m.old.store) m.old.ticks) m.new }
{
    let Ok(instances) = coming(&t.change, t.kept) else {
        return Err(Halt::NoMemory);
    };
    init_and_copy(t, hooks, &instances, before, m)
}

/// The inits of all that comes, the copy, and the reinits.
pub fn come(
    t: &Turn<'_, '_, '_, '_, '_, '_, '_>,
    before: &Series<Member>,
    m: &mut RunState,
) -> Result<(), Halt>
    requires { IsTurn t.now }
    ensures { RanAs result (entered (old_of t.now) (new_of t.now) (members_of before.now) (members_of m.old.store) m.old.ticks) m.new }
{
    let Ok(hooks) = HookTables::build(t.change.alloc, t.change.new.program) else {
        return Err(Halt::NoMemory);
    };
    come_with(t, &hooks, before, m)
}
