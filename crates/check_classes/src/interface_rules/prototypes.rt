//! Methods of an interface, one after the other.

ghost use Rattle.std.specs.Prelude.{◌≡◌, IfOk};
ghost use Rattle.check_classes.specs.interface_rules.Prototypes.{ChecksPrototypes};
ghost use Rattle.check_classes.specs.interface_rules.Private.Prototypes.{AddsPrototype, NoPrototypes};

use check_routines::{CheckedPrototype, check_prototype};
use plc_text::{Code, Items, NoMemory};
use st_rules::earlier;
use st_tree::{Note, Prototype};
use std::alloc::Global;
use symbol_table::unit_tables::UnitTables;

/// What is found out about methods of an interface.
pub struct CheckedPrototypes {
    pub least: Option<(Code, u32)>,
    pub prototypes: Items<Prototype<Note>>,
}

// By hand, so that a drop is one call: a derived one is written out wherever a `?` may need it.
impl Drop for CheckedPrototypes {
    fn drop(self) {
        drop(self.into_prototypes());
    }
}

impl CheckedPrototypes {
    /// The typed trees alone.
    pub fn into_prototypes(self) -> Items<Prototype<Note>>
        ensures { result ≡ self.prototypes }
    {
        let CheckedPrototypes {
            least: _,
            prototypes,
        } = self;
        prototypes
    }
}

fn no_prototypes(alloc: Global) -> CheckedPrototypes
    ensures { NoPrototypes result }
{
    CheckedPrototypes {
        least: None,
        prototypes: Items::new(alloc),
    }
}

fn with_prototype(
    so_far: CheckedPrototypes,
    one: CheckedPrototype,
) -> Result<CheckedPrototypes, NoMemory>
    ensures { IfOk result (λ x. AddsPrototype x so_far one) }
{
    let mut so_far = so_far;
    let CheckedPrototype { least, method } = one;
    so_far.least = earlier(so_far.least, least);
    so_far.prototypes.push(method)?;
    Ok(so_far)
}

/// Checks methods of an interface.
pub fn check_prototypes(
    alloc: Global,
    tables: &UnitTables<'_>,
    methods: &[Prototype<u32>],
) -> Result<CheckedPrototypes, NoMemory>
    ensures { IfOk result (λ c. ChecksPrototypes c tables.now.decls methods.now) }
{
    let mut so_far = no_prototypes(alloc);
    for method in methods {
        let one = check_prototype(alloc, tables, method)?;
        so_far = with_prototype(so_far, one)?;
    }
    Ok(so_far)
}
