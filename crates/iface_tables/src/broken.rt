//! The rules of interfaces that a class or an interface breaks.

ghost use Rattle.std.specs.Prelude.{◌≡◌, [], length, get_or, option_copied};
ghost use Rattle.st_rules.specs.Faults.{least};
ghost use Rattle.st_rules.specs.Signatures.{signature_of, prototype_signature};
ghost use Rattle.st_rules.specs.Interfaces.{interfaces_in, prototype_id};
ghost use Rattle.iface_tables.specs.Private.Broken as broken;

use crate::targets::target;
use class_tables::ClassTables;
use plc_text::{Code, Items, Text};
use st_rules::{MethodId, Signature, Signatures, earlier, same_signature, when};
use st_types::StType;

fn method_signature<V>(signatures: &Signatures<V>, id: MethodId) -> Option<&Signature<V>>
    ensures { option_copied result ≡ signature_of signatures.now id }
{
    match signatures.methods.get(id.class as usize) {
        Some(methods) => methods.get(id.method as usize),
        None => None,
    }
}

fn interface_signature<V>(
    signatures: &Signatures<V>,
    interface: u32,
    method: usize,
) -> Option<&Signature<V>>
    ensures { option_copied result ≡ prototype_signature signatures.now (prototype_id interface method) }
{
    match signatures.prototypes.get(interface as usize) {
        Some(methods) => methods.get(method),
        None => None,
    }
}

/// Whether a method has the signature that a method of an interface has, as far as both can be told.
fn has_signature<V: PartialEq>(
    signatures: &Signatures<V>,
    id: MethodId,
    interface: u32,
    method: usize,
) -> bool
    ensures { result ≡ broken.has_signature V.eq signatures.now id (prototype_id interface method) }
{
    let own = match method_signature(signatures, id) {
        Some(own) => own,
        None => return true,
    };
    match interface_signature(signatures, interface, method) {
        Some(other) => same_signature(own, other),
        None => true,
    }
}

/// Whether a class has a PUBLIC method of equal signature.
fn is_met<V: PartialEq>(
    classes: &ClassTables,
    prototypes: &[Items<Text>],
    signatures: &Signatures<V>,
    class: u32,
    interface: u32,
    method: usize,
) -> bool
    ensures { result ≡ broken.is_met V.eq classes.now prototypes.now signatures.now class interface method }
{
    match target(classes, prototypes, class, interface, method) {
        Some(id) => has_signature(signatures, id, interface, method),
        None => false,
    }
}

/// Whether a method of an interface is not met.
fn leaves_one<V: PartialEq>(
    classes: &ClassTables,
    prototypes: &[Items<Text>],
    signatures: &Signatures<V>,
    class: u32,
    interface: u32,
    names: &[Text],
) -> bool
    ensures { result ≡ broken.leaves_one V.eq classes.now prototypes.now signatures.now class interface names.now }
{
    for method in 0..names.len() {
        if !is_met(classes, prototypes, signatures, class, interface, method) {
            return true;
        }
    }
    false
}

/// Whether a class conforms to an interface and does not meet one of its methods.
fn leaves_interface<V: PartialEq>(
    classes: &ClassTables,
    prototypes: &[Items<Text>],
    signatures: &Signatures<V>,
    class: u32,
    interface: u32,
    names: &[Text],
) -> bool
    ensures { result ≡ broken.leaves_interface V.eq classes.now prototypes.now signatures.now class interface names.now }
{
    classes.conforms(class, &StType::Interface(interface))
        && leaves_one(classes, prototypes, signatures, class, interface, names)
}

fn names_at(prototypes: &[Items<Text>], interface: usize) -> &[Text]
    ensures { result.now ≡ get_or prototypes.now interface [] }
{
    match prototypes.get(interface) {
        Some(names) => names.as_slice(),
        None => &[],
    }
}

/// Whether a class leaves a method of an interface to which it conforms.
fn leaves_any<V: PartialEq>(
    classes: &ClassTables,
    prototypes: &[Items<Text>],
    signatures: &Signatures<V>,
    class: u32,
) -> bool
    requires { length prototypes.now ≡ length (interfaces_in classes.now.decls) }
    ensures { result ≡ broken.leaves_any V.eq classes.now prototypes.now signatures.now class }
{
    let count = classes.interface_count();
    for interface in 0..count {
        let names = names_at(prototypes, interface as usize);
        if leaves_interface(classes, prototypes, signatures, class, interface, names) {
            return true;
        }
    }
    false
}

/// The least of the rules of interfaces and abstract methods that a class breaks.
#[tactic(auto, using(st_rules::proofs::FaultLaws::faults))]
pub fn class_fault<V: PartialEq>(
    classes: &ClassTables,
    prototypes: &[Items<Text>],
    signatures: &Signatures<V>,
    class: u32,
) -> Option<(Code, u32)>
    requires { length prototypes.now ≡ length (interfaces_in classes.now.decls) }
    ensures { result ≡ least (broken.class_faults V.eq classes.now prototypes.now signatures.now class) }
{
    let line = match classes.concrete_line(class) {
        Some(line) => line,
        None => return None,
    };
    let left = when(classes.has_abstract_method(class), Code::E11, line);
    let not_met = when(
        leaves_any(classes, prototypes, signatures, class),
        Code::E11,
        line,
    );
    earlier(left, not_met)
}

/// Whether an interface lies on a cycle of interfaces.
pub fn interface_fault(classes: &ClassTables, interface: u32) -> Option<(Code, u32)>
    ensures { result ≡ least (broken.interface_faults classes.now interface) }
{
    match classes.interface_line(interface) {
        Some(line) => when(classes.lies_on_interface_cycle(interface), Code::E06, line),
        None => None,
    }
}
