//! The hooks of the classes in the chain of an instance.

ghost use Rattle.std.specs.Prelude.{[], ◌∷◌};
ghost use Rattle.st_change.specs.Hook as words;
ghost use Rattle.st_values.specs.View.{program_of};
ghost use Rattle.value_trees.specs.Value as trees;
ghost use Rattle.reference_tasks.specs.Loaded.{IsLoaded};
ghost use Rattle.reference_hooks.specs.Hooks.{RanAs, member_of};
ghost use Rattle.reference_hooks.specs.Tables.{AreHooks};

use crate::hooks::{Halt, Instance, run_own};
use crate::tables::{HookTables, When, hook_at};
use reference_tasks::Loaded;
use run_state::RunState;

/// Runs FB_init of each class of an instance's chain that declares it, base first: whether values of an instance of the program before are
/// copied into this one is told to them. Frames, moment and undo are the last hook's. Nothing bounds the machine's stack in hooks.
pub fn run_init(
    on: &Loaded<'_>,
    hooks: &HookTables,
    m: &mut RunState,
    instance: &Instance,
    copied: bool,
) -> Result<(), Halt>
    requires loaded { IsLoaded on.now }
    requires tables { AreHooks on.now.tables.now hooks.now }
    ensures { RanAs result (words.run_hooks (program_of on.now.tables.now) (words.init_hooks (program_of on.now.tables.now) (words.init_flags copied) (member_of (program_of on.now.tables.now) instance.now)) (trees.members_of m.old.store) m.old.ticks) m.new }
{
    let Ok(chain) = on.tables.chain(on.alloc, instance.class) else {
        return Err(Halt::NoMemory);
    };
    let flags = [!copied, copied];
    let mut left = chain.as_slice();
    'classes: while let Some((class, behind)) = left.split_last() {
        match run_own(
            on,
            &hooks.inits,
            m,
            When::Init,
            *class,
            &instance.path,
            &flags,
        ) {
            Ok(()) => left = behind,
            Err(halt) => return Err(halt),
        }
    }
    Ok(())
}

/// Runs FB_exit of each class of an instance's chain that declares it, derived first: whether an instance of the next program goes on from
/// this one is told to them.
pub fn run_exit(
    on: &Loaded<'_>,
    hooks: &HookTables,
    m: &mut RunState,
    instance: &Instance,
    goes_on: bool,
) -> Result<(), Halt>
    requires loaded { IsLoaded on.now }
    requires tables { AreHooks on.now.tables.now hooks.now }
    ensures { RanAs result (words.run_hooks (program_of on.now.tables.now) (words.exit_hooks (program_of on.now.tables.now) (goes_on ∷ []) (member_of (program_of on.now.tables.now) instance.now)) (trees.members_of m.old.store) m.old.ticks) m.new }
{
    let Ok(chain) = on.tables.chain(on.alloc, instance.class) else {
        return Err(Halt::NoMemory);
    };
    let flags = [goes_on];
    let mut left = chain.as_slice();
    'classes: while let Some((class, behind)) = left.split_first() {
        match run_own(
            on,
            &hooks.exits,
            m,
            When::Exit,
            *class,
            &instance.path,
            &flags,
        ) {
            Ok(()) => left = behind,
            Err(halt) => return Err(halt),
        }
    }
    Ok(())
}

/// Runs the nearest FB_reinit in an instance's chain, if any class declares it.
pub fn run_reinit(
    on: &Loaded<'_>,
    hooks: &HookTables,
    m: &mut RunState,
    instance: &Instance,
) -> Result<(), Halt>
    requires loaded { IsLoaded on.now }
    requires tables { AreHooks on.now.tables.now hooks.now }
    ensures { RanAs result (words.run_hooks (program_of on.now.tables.now) (words.reinit_hooks (program_of on.now.tables.now) (member_of (program_of on.now.tables.now) instance.now)) (trees.members_of m.old.store) m.old.ticks) m.new }
{
    let Ok(chain) = on.tables.chain(on.alloc, instance.class) else {
        return Err(Halt::NoMemory);
    };
    let mut left = chain.as_slice();
    'classes: while let Some((class, behind)) = left.split_first() {
        if hook_at(&hooks.reinits, *class).is_some() {
            return run_own(
                on,
                &hooks.reinits,
                m,
                When::Reinit,
                *class,
                &instance.path,
                &[],
            );
        }
        left = behind;
    }
    Ok(())
}
