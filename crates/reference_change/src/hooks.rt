//! The hooks of the instances that leave, and of those that come.

ghost use Rattle.std.specs.Prelude.{map};
ghost use Rattle.st_change.specs.Hook.{run_hooks};
ghost use Rattle.value_trees.specs.Value.{members_of};
ghost use Rattle.reference_hooks.specs.Hooks.{RanAs, member_of};
ghost use Rattle.reference_hooks.specs.Tables.{AreHooks};
ghost use Rattle.reference_change.specs.Private.Phases.{all_hooks, exits_of, inits_of, reinits_of};
ghost use Rattle.reference_change.specs.Private.Turn.{IsTurn, new_of, old_of};

use crate::turn::Turn;
use change_kept::{comes_from, goes_on};
use reference_hooks::{Halt, HookTables, Instance, run_exit, run_init, run_reinit};
use run_state::RunState;

/// Runs the exits of an instance of the old program.
fn exit_one(
    t: &Turn<'_, '_, '_, '_, '_, '_, '_>,
    hooks: &HookTables,
    m: &mut RunState,
    instance: &Instance,
) -> Result<(), Halt>
    requires turn { IsTurn t.now }
    requires tables { AreHooks t.now.change.old.program.now hooks.now }
    ensures { RanAs result (run_hooks (old_of t.now) (exits_of (old_of t.now) (new_of t.now) (member_of (old_of t.now) instance.now)) (members_of m.old.store) m.old.ticks) m.new }
{
    let Ok(is_told) = goes_on(&t.change, t.kept, instance) else {
        return Err(Halt::NoMemory);
    };
    run_exit(t.old, hooks, m, instance, is_told)
}

/// Runs the exits of instances of the old program in order.
pub fn run_exits(
    t: &Turn<'_, '_, '_, '_, '_, '_, '_>,
    hooks: &HookTables,
    m: &mut RunState,
    instances: &[Instance],
) -> Result<(), Halt>
    requires turn { IsTurn t.now }
    requires tables { AreHooks t.now.change.old.program.now hooks.now }
    ensures { RanAs result (run_hooks (old_of t.now) (all_hooks (exits_of (old_of t.now) (new_of t.now)) (map (member_of (old_of t.now)) instances.now)) (members_of m.old.store) m.old.ticks) m.new }
{
    for instance in instances {
        match exit_one(t, hooks, m, instance) {
            Ok(()) => {}
            Err(halt) => return Err(halt),
        }
    }
    Ok(())
}

/// Runs the inits of an instance of the new program.
fn init_one(
    t: &Turn<'_, '_, '_, '_, '_, '_, '_>,
    hooks: &HookTables,
    m: &mut RunState,
    instance: &Instance,
) -> Result<(), Halt>
    requires turn { IsTurn t.now }
    requires tables { AreHooks t.now.change.new.program.now hooks.now }
    ensures { RanAs result (run_hooks (new_of t.now) (inits_of (old_of t.now) (new_of t.now) (member_of (new_of t.now) instance.now)) (members_of m.old.store) m.old.ticks) m.new }
{
    let Ok(is_told) = comes_from(&t.change, t.kept, instance) else {
        return Err(Halt::NoMemory);
    };
    run_init(t.new, hooks, m, instance, is_told)
}

/// Runs the inits of instances of the new program in order.
pub fn run_inits(
    t: &Turn<'_, '_, '_, '_, '_, '_, '_>,
    hooks: &HookTables,
    m: &mut RunState,
    instances: &[Instance],
) -> Result<(), Halt>
    requires turn { IsTurn t.now }
    requires tables { AreHooks t.now.change.new.program.now hooks.now }
    ensures { RanAs result (run_hooks (new_of t.now) (all_hooks (inits_of (old_of t.now) (new_of t.now)) (map (member_of (new_of t.now)) instances.now)) (members_of m.old.store) m.old.ticks) m.new }
{
    for instance in instances {
        match init_one(t, hooks, m, instance) {
            Ok(()) => {}
            Err(halt) => return Err(halt),
        }
    }
    Ok(())
}

/// Runs the reinit of an instance of the new program, where it goes on from an old one.
fn reinit_one(
    t: &Turn<'_, '_, '_, '_, '_, '_, '_>,
    hooks: &HookTables,
    m: &mut RunState,
    instance: &Instance,
) -> Result<(), Halt>
    requires turn { IsTurn t.now }
    requires tables { AreHooks t.now.change.new.program.now hooks.now }
    ensures { RanAs result (run_hooks (new_of t.now) (reinits_of (old_of t.now) (new_of t.now) (member_of (new_of t.now) instance.now)) (members_of m.old.store) m.old.ticks) m.new }
{
    let Ok(is_copied) = comes_from(&t.change, t.kept, instance) else {
        return Err(Halt::NoMemory);
    };
    if is_copied {
        run_reinit(t.new, hooks, m, instance)
    } else {
        Ok(())
    }
}

/// Runs the reinits of instances of the new program in order.
pub fn run_reinits(
    t: &Turn<'_, '_, '_, '_, '_, '_, '_>,
    hooks: &HookTables,
    m: &mut RunState,
    instances: &[Instance],
) -> Result<(), Halt>
    requires turn { IsTurn t.now }
    requires tables { AreHooks t.now.change.new.program.now hooks.now }
    ensures { RanAs result (run_hooks (new_of t.now) (all_hooks (reinits_of (old_of t.now) (new_of t.now)) (map (member_of (new_of t.now)) instances.now)) (members_of m.old.store) m.old.ticks) m.new }
{
    for instance in instances {
        match reinit_one(t, hooks, m, instance) {
            Ok(()) => {}
            Err(halt) => return Err(halt),
        }
    }
    Ok(())
}
