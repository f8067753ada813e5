//! The tasks that are held, and those that are gone.

ghost use Rattle.std.specs.Prelude.{◌≡◌, ◌∷◌, ◌++◌, [], IfOk, OnOk, map};
ghost use Rattle.std.specs.List.{list_any};
ghost use Rattle.plc_text.specs.Words.{same};
ghost use Rattle.st_change.specs.OneThread as words;
ghost use Rattle.reference_plays.specs.Controller.{gone_of};

use crate::controller::Gone;
use cycle_journal::{Answer, CycleReply};
use plc_text::{NoMemory, Text};
use std::alloc::Global;
use std::mem;

/// Whether two names are equal.
pub fn is_same(name: &Text, other: &Text) -> bool
    ensures { result ≡ same name.now other.now }
{
    name == other
}

/// Whether a name is one of these.
fn is_among(names: &[Text], name: &Text) -> bool
    ensures { result ≡ list_any (λ other. same other name.now) names.now }
{
    names.iter().any(|other| is_same(other, name))
}

/// Whether a task is held.
pub fn is_held(held: &[Text], name: &Text) -> bool
    ensures { result ≡ words.is_held held.now name.now }
{
    is_among(held, name)
}

/// The version that removed a task, 0 where none did.
pub fn since(gone: &[Gone], name: &Text) -> u32
    ensures { result ≡ words.since (map gone_of gone.now) name.now }
{
    for task in gone {
        if is_same(&task.name, name) {
            return task.version;
        }
    }
    0
}

/// Holds a task from now on.
fn hold(alloc: Global, held: &mut Vec<Text>, name: &Text) -> Result<(), NoMemory>
    ensures { OnOk result (held.new.items ≡ name.now ∷ held.old.items) }
{
    let name = Text::copy(alloc, name.as_str())?;
    held.insert(0, name)?;
    Ok(())
}

/// The answer to a cycle; a fault holds its task.
pub fn settle(
    alloc: Global,
    held: &mut Vec<Text>,
    name: &Text,
    reply: CycleReply,
) -> Result<Answer, NoMemory>
    ensures answer { IfOk result (λ a. a ≡ words.cycle_answer reply) }
    ensures held { OnOk result (held.new.items ≡ words.held_after reply name.now held.old.items) }
{
    match reply {
        CycleReply::Done { ticks, outputs } => Ok(Answer::Done { ticks, outputs }),
        CycleReply::Fault(fault) => {
            hold(alloc, held, name)?;
            Ok(Answer::Fault(fault))
        }
    }
}

/// Keeps a held task of another name.
fn keep(held: &mut Vec<Text>, task: Text, name: &Text) -> Result<(), NoMemory>
    ensures { OnOk result (held.new.items ≡ held.old.items ++ words.released (task ∷ []) name.now) }
{
    if is_same(&task, name) {
        return Ok(());
    }
    held.push(task)?;
    Ok(())
}

/// Releases a task.
#[tactic(auto, using(crate::proofs::HeldLaws::released_both))]
pub fn release(alloc: Global, held: &mut Vec<Text>, name: &Text) -> Result<(), NoMemory>
    ensures { OnOk result (held.new.items ≡ words.released held.old.items name.now) }
{
    let all = mem::replace(held, Vec::new(alloc));
    for task in all {
        keep(held, task, name)?;
    }
    Ok(())
}
