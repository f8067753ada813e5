//! What the routines that calls may enter have in common: found once for each method.

ghost use Rattle.std.specs.Prelude.{◌≡◌, ◌++◌, [], ℕ, List, IfOk, OnOk};
ghost use Rattle.stack_code.specs.Machine.{first_target};
ghost use Rattle.stack_code.specs.valid_code.Private.Calls as c;
ghost use Rattle.stack_code.specs.valid_code.Private.Tables as t;
ghost use Rattle.stack_code.specs.valid_code.Private.Entered as e;

use crate::valid_code::calls::{Common, common_method, with_routine};
use crate::valid_code::tables::{Implemented, Pair, conformers};
use crate::{InterfaceTarget, MachineCode};
use plc_text::{Items, NoMemory};
use std::alloc::Global;
use std::collections::HashMap;

/// What is known of the code's calls.
#[derive(Drop)]
pub struct Entered {
    /// The classes that conform to each target.
    conformers: HashMap<u32, Items<u32>>,
    /// For a target and a slot, as far as they were asked for.
    methods: HashMap<Pair, Common>,
    /// For an interface and a method.
    targets: HashMap<Pair, Common>,
}

fn common_at(commons: &HashMap<Pair, Common>, key: Pair) -> Common
    ensures { result ≡ e.common_at commons.now key }
{
    match commons.get(&key) {
        Some(common) => *common,
        None => Common::Nobody,
    }
}

fn note_common(
    commons: &mut HashMap<Pair, Common>,
    key: Pair,
    common: Common,
) -> Result<(), NoMemory>
    ensures { OnOk result (e.IsCommonNoted commons.old commons.new key common) }
{
    commons.insert(key, common)?;
    Ok(())
}

/// The same with the routine by which the entry's class implements its method.
fn with_target(
    code: &MachineCode,
    implementations: &HashMap<Implemented, u32>,
    common: Common,
    entry: InterfaceTarget,
) -> Common
    requires { t.AreImplementations code.now.targets implementations.now }
    ensures { (ks : List ℕ) → c.Shares code.now ks common → c.Shares code.now (ks ++ c.with_some (first_target code.now.targets entry.class entry.interface entry.method) []) result }
{
    match implementations.get(&(entry.class, (entry.interface, entry.method))) {
        Some(routine) => with_routine(code, common, *routine),
        None => common,
    }
}

/// Takes the routine by which a class implements the method of the entry to those of the method.
fn note_target(
    code: &MachineCode,
    implementations: &HashMap<Implemented, u32>,
    commons: &mut HashMap<Pair, Common>,
    entry: InterfaceTarget,
) -> Result<(), NoMemory>
    requires { t.AreImplementations code.now.targets implementations.now }
    ensures { OnOk result (e.IsTargetNoted code.now commons.old commons.new entry) }
{
    let key = (entry.interface, entry.method);
    let common = with_target(code, implementations, common_at(commons, key), entry);
    note_common(commons, key, common)?;
    Ok(())
}

/// What the routines of each method of an interface have in common, as far as these entries name them.
fn target_commons(
    alloc: Global,
    code: &MachineCode,
    implementations: &HashMap<Implemented, u32>,
    entries: &[InterfaceTarget],
) -> Result<HashMap<Pair, Common>, NoMemory>
    requires { t.AreImplementations code.now.targets implementations.now }
    ensures { IfOk result (λ commons. e.AreTargetCommons code.now entries.now commons) }
{
    let mut commons = HashMap::new(alloc);
    'entries: for entry in entries {
        note_target(code, implementations, &mut commons, *entry)?;
    }
    Ok(commons)
}

/// What is known before a call was looked at.
pub fn begin(
    alloc: Global,
    code: &MachineCode,
    implementations: &HashMap<Implemented, u32>,
) -> Result<Entered, NoMemory>
    requires { t.AreImplementations code.now.targets implementations.now }
    ensures { IfOk result (λ entered. e.IsKnown code.now entered) }
{
    Ok(Entered {
        conformers: conformers(alloc, code.conforms.as_slice())?,
        methods: HashMap::new(alloc),
        targets: target_commons(alloc, code, implementations, code.targets.as_slice())?,
    })
}

/// What the routines in a slot of the classes that conform to a target have in common.
pub fn method_common(
    code: &MachineCode,
    entered: &mut Entered,
    target: u32,
    slot: u32,
) -> Result<Common, NoMemory>
    requires { e.IsKnown code.now entered.old }
    ensures known { OnOk result (e.IsKnown code.now entered.new) }
    ensures common { IfOk result (λ common. c.Shares code.now (e.methods_at code.now target slot) common) }
{
    if let Some(common) = entered.methods.get(&(target, slot)) {
        return Ok(*common);
    }
    let common = match entered.conformers.get(&target) {
        Some(classes) => common_method(code, classes.as_slice(), slot),
        None => Common::Nobody,
    };
    note_common(&mut entered.methods, (target, slot), common)?;
    Ok(common)
}

/// What the routines by which classes implement a method of an interface have in common.
pub fn target_common(entered: &Entered, interface: u32, method: u32) -> Common
    ensures { result ≡ e.common_at entered.now.targets (interface, method) }
{
    common_at(&entered.targets, (interface, method))
}
