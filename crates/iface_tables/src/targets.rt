//! The method that a class runs for a method of an interface.

ghost use Rattle.std.specs.Prelude.{◌≡◌};
ghost use Rattle.iface_tables.specs.Private.Targets as targets;

use class_tables::ClassTables;
use plc_text::{Items, Text};
use st_rules::MethodId;
use st_types::StType;

/// The method of that name, if it is PUBLIC.
fn public_method(classes: &ClassTables, class: u32, name: &Text) -> Option<MethodId>
    ensures { result ≡ targets.public_method classes.now class name.now }
{
    match classes.method_of(class, name) {
        Some(id) => {
            if classes.is_public(id) {
                Some(id)
            } else {
                None
            }
        }
        None => None,
    }
}

/// The method of the name of that number, if it is PUBLIC.
fn named_method(
    classes: &ClassTables,
    prototypes: &[Items<Text>],
    class: u32,
    interface: u32,
    method: usize,
) -> Option<MethodId>
    ensures { result ≡ targets.named_method classes.now prototypes.now class interface method }
{
    match prototypes.get(interface as usize) {
        Some(names) => match names.get(method) {
            Some(name) => public_method(classes, class, name),
            None => None,
        },
        None => None,
    }
}

/// The method that the class runs.
pub fn target(
    classes: &ClassTables,
    prototypes: &[Items<Text>],
    class: u32,
    interface: u32,
    method: usize,
) -> Option<MethodId>
    ensures { result ≡ targets.target classes.now prototypes.now class interface method }
{
    if classes.conforms(class, &StType::Interface(interface)) {
        named_method(classes, prototypes, class, interface, method)
    } else {
        None
    }
}
