//! Names of classes and interfaces, as they are used in headings.

ghost use Rattle.std.specs.Prelude.{◌≡◌, IfOk};
ghost use Rattle.st_rules.specs.Faults.{least};
ghost use Rattle.st_unit_rules.specs.DeclarationRules as rules;
ghost use Rattle.st_unit_rules.specs.Checked as checked;
ghost use Rattle.check_classes.specs.base_rules.Used.{ChecksBase, ChecksInterfaces, ChecksUsed};
ghost use Rattle.check_classes.specs.base_rules.Private.Used.{AddsInterface, IsBase, IsUsed, NoInterfaces};

use check_places::note;
use class_tables::ClassTables;
use plc_text::{Code, Items, NoMemory, Text};
use st_rules::{earlier, when};
use st_tree::{Note, Target, Used};
use st_types::StType;
use std::alloc::Global;

/// What is found out about the base of a class, which may have none.
pub struct CheckedBase {
    /// E05 at the line of the name, where there is no such class.
    pub least: Option<(Code, u32)>,
    pub base: Option<Used<Note>>,
}

// By hand, so that a drop is one call: a derived one is written out wherever a `?` may need it.
impl Drop for CheckedBase {
    fn drop(self) {
        drop(self.into_base());
    }
}

impl CheckedBase {
    /// The typed tree alone.
    pub fn into_base(self) -> Option<Used<Note>>
        ensures { result ≡ self.base }
    {
        let CheckedBase { least: _, base } = self;
        base
    }
}

/// What is found out about interfaces.
pub struct CheckedInterfaces {
    /// E05 at the first line of a name that no interface has.
    pub least: Option<(Code, u32)>,
    pub interfaces: Items<Used<Note>>,
}

impl Drop for CheckedInterfaces {
    fn drop(self) {
        drop(self.into_interfaces());
    }
}

impl CheckedInterfaces {
    /// The typed trees alone.
    pub fn into_interfaces(self) -> Items<Used<Note>>
        ensures { result ≡ self.interfaces }
    {
        let CheckedInterfaces {
            least: _,
            interfaces,
        } = self;
        interfaces
    }
}

/// What is found out about one name.
#[derive(Drop)]
struct CheckedUsed {
    least: Option<(Code, u32)>,
    used: Used<Note>,
}

/// A name that means this type, where it means one.
fn used_as(alloc: Global, used: &Used<u32>, kind: Option<StType>) -> Result<CheckedUsed, NoMemory>
    ensures { IfOk result (λ c. IsUsed c used.now kind) }
{
    let text = Text::copy(alloc, used.text.as_str())?;
    let line = used.note;
    Ok(CheckedUsed {
        least: when(kind.is_none(), Code::E05, line),
        used: Used {
            note: note(line, kind, Target::Nothing),
            text,
        },
    })
}

fn class_meant(classes: &ClassTables, name: &Text) -> Option<StType>
    ensures { result ≡ checked.class_meant classes.now.decls name.now }
{
    match classes.class_named(name) {
        Some(class) => Some(StType::Instance(class)),
        None => None,
    }
}

fn interface_meant(classes: &ClassTables, name: &Text) -> Option<StType>
    ensures { result ≡ checked.interface_meant classes.now.decls name.now }
{
    match classes.interface_named(name) {
        Some(interface) => Some(StType::Interface(interface)),
        None => None,
    }
}

fn interface_used(
    alloc: Global,
    classes: &ClassTables,
    used: &Used<u32>,
) -> Result<CheckedUsed, NoMemory>
    ensures { IfOk result (λ c. ChecksUsed (rules.interface_not_found classes.now.decls used.now) (checked.interface_meant classes.now.decls) c.least used.now c.used) }
{
    let kind = interface_meant(classes, &used.text);
    let found = used_as(alloc, used, kind)?;
    Ok(found)
}

fn base_of(found: CheckedUsed) -> CheckedBase
    ensures { IsBase result found }
{
    let CheckedUsed { least, used } = found;
    CheckedBase {
        least,
        base: Some(used),
    }
}

/// Checks the name of the base of a class, where it has one.
pub fn check_base(
    alloc: Global,
    classes: &ClassTables,
    base: &Option<Used<u32>>,
) -> Result<CheckedBase, NoMemory>
    ensures { IfOk result (λ c. ChecksBase c classes.now.decls base.now) }
{
    match base {
        Some(used) => {
            let kind = class_meant(classes, &used.text);
            let found = used_as(alloc, used, kind)?;
            Ok(base_of(found))
        }
        None => Ok(CheckedBase {
            least: None,
            base: None,
        }),
    }
}

fn no_interfaces(alloc: Global) -> CheckedInterfaces
    ensures { NoInterfaces result }
{
    CheckedInterfaces {
        least: None,
        interfaces: Items::new(alloc),
    }
}

fn with_interface(
    so_far: CheckedInterfaces,
    one: CheckedUsed,
) -> Result<CheckedInterfaces, NoMemory>
    ensures { IfOk result (λ x. AddsInterface x so_far one) }
{
    let mut so_far = so_far;
    let CheckedUsed { least, used } = one;
    so_far.least = earlier(so_far.least, least);
    so_far.interfaces.push(used)?;
    Ok(so_far)
}

/// Checks the names of interfaces behind IMPLEMENTS or EXTENDS.
pub fn check_interfaces(
    alloc: Global,
    classes: &ClassTables,
    names: &[Used<u32>],
) -> Result<CheckedInterfaces, NoMemory>
    ensures { IfOk result (λ c. ChecksInterfaces c classes.now.decls names.now) }
{
    let mut so_far = no_interfaces(alloc);
    for used in names {
        let one = interface_used(alloc, classes, used)?;
        so_far = with_interface(so_far, one)?;
    }
    Ok(so_far)
}
