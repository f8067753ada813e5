//! The hooks that classes declare themselves.

ghost use Rattle.std.specs.Prelude.{◌≡◌, IfOk, option_map, slice_get};
ghost use Rattle.std.specs.List.{position_from};
ghost use Rattle.st_change.specs.Hook as words;
ghost use Rattle.st_values.specs.Program.{own_method};
ghost use Rattle.st_values.specs.View.{program_of};
ghost use Rattle.program_tables.specs.Routine.{members_of, routine_of};
ghost use Rattle.reference_hooks.specs.Tables.{AreHooks, AreOwn, id_at};
ghost use Rattle.reference_hooks.specs.Private.Hooks.{is_hook, when_of};

use plc_text::{NoMemory, narrowed};
use program_tables::RoutineId;
use st_tree::{Member, Note, Program};
use std::alloc::Global;

/// When a hook is called.
#[derive(Clone, Copy)]
pub enum When {
    Init,
    Exit,
    Reinit,
}

/// The hooks that classes declare themselves, by the numbers of the classes.
#[derive(Drop)]
pub struct HookTables {
    pub inits: Vec<Option<RoutineId>>,
    pub exits: Vec<Option<RoutineId>>,
    pub reinits: Vec<Option<RoutineId>>,
}

/// The name of a hook.
fn hook_name(when: When) -> &'static str
    ensures { result.now ≡ words.hook_name (when_of when) }
{
    match when {
        When::Init => "FB_INIT",
        When::Exit => "FB_EXIT",
        When::Reinit => "FB_REINIT",
    }
}

/// Whether a member is a hook.
fn is_hook(when: When, member: &Member<Note>) -> bool
    ensures { result ≡ is_hook (when_of when) member.now }
{
    match member {
        Member::Method(method) => method.name.text.as_str() == hook_name(when),
        Member::Section(_) => false,
    }
}

/// Where a hook stands among the members of a class.
fn hook_place(when: When, members: &[Member<Note>]) -> Option<usize>
    ensures { result ≡ position_from (is_hook (when_of when)) 0 members.now }
{
    members.iter().position(|member| is_hook(when, member))
}

/// The members of a class; a program has none.
fn members_at(program: &Program, class: u32) -> &[Member<Note>]
    ensures { result.now ≡ members_of (slice_get program.now.classes class) }
{
    match program.classes.get(class as usize) {
        Some(decl) => decl.members.as_slice(),
        None => &[],
    }
}

/// The hook that a class declares itself.
fn own_hook(program: &Program, when: When, class: u32) -> Result<Option<RoutineId>, NoMemory>
    ensures { IfOk result (λ id. option_map (routine_of program.now) id ≡ own_method (program_of program.now) (words.hook_name (when_of when)) class) }
{
    match hook_place(when, members_at(program, class)) {
        Some(k) => {
            let place = narrowed(k)?;
            Ok(Some(RoutineId::Method(class, place)))
        }
        None => Ok(None),
    }
}

/// The hooks of one name that classes declare themselves.
fn own_hooks(
    alloc: Global,
    program: &Program,
    when: When,
) -> Result<Vec<Option<RoutineId>>, NoMemory>
    ensures { IfOk result (λ ids. AreOwn program.now (when_of when) ids.items) }
{
    let mut ids = Vec::new(alloc);
    for c in 0..program.classes.len() {
        let class = narrowed(c)?;
        let id = own_hook(program, when, class)?;
        ids.push(id)?;
    }
    Ok(ids)
}

impl HookTables {
    /// The hooks of the classes of a program.
    pub fn build(alloc: Global, program: &Program) -> Result<HookTables, NoMemory>
        ensures { IfOk result (λ hooks. AreHooks program.now hooks) }
    {
        let inits = own_hooks(alloc, program, When::Init)?;
        let exits = own_hooks(alloc, program, When::Exit)?;
        let reinits = own_hooks(alloc, program, When::Reinit)?;
        Ok(HookTables {
            inits,
            exits,
            reinits,
        })
    }
}

/// The hook of the class of this number.
pub fn hook_at(ids: &[Option<RoutineId>], class: u32) -> Option<RoutineId>
    ensures { result ≡ id_at (slice_get ids.now class) }
{
    match ids.get(class as usize) {
        Some(id) => *id,
        None => None,
    }
}
