//! Types as they are written.

ghost use Rattle.std.specs.Prelude.{◌≡◌, IfOk};
ghost use Rattle.check_declared_variables.specs.type_rules.Types.{ChecksType};

use crate::type_rules::arrays::{Arrays, check_arrays, turned_arrays};
use crate::type_rules::dimensions::Told;
use crate::type_rules::elements::{CheckedElement, check_element};
use name_resolution::Scope;
use plc_text::{Code, NoMemory};
use st_tree::{Note, TypeSpec};
use st_types::StType;
use std::alloc::Global;

/// What is found out about a type as it is written.
pub struct CheckedType {
    /// The type, where it can be told.
    pub kind: Option<StType>,
    /// The least rule that is broken, with its least line.
    pub least: Option<(Code, u32)>,
    pub tree: TypeSpec<Note>,
}

// By hand, so that a drop is one call: a derived one is written out wherever a `?` may need it.
impl Drop for CheckedType {
    fn drop(self) {
        let CheckedType {
            kind,
            least: _,
            tree,
        } = self;
        drop(kind);
        drop(tree);
    }
}

impl CheckedType {
    /// The type alone.
    pub fn into_kind(self) -> Option<StType>
        ensures { result ≡ self.kind }
    {
        let CheckedType {
            kind,
            least: _,
            tree,
        } = self;
        drop(tree);
        kind
    }

    /// The typed tree alone.
    pub fn into_tree(self) -> TypeSpec<Note>
        ensures { result ≡ self.tree }
    {
        let CheckedType {
            kind,
            least: _,
            tree,
        } = self;
        drop(kind);
        tree
    }
}

/// Checks a type as it is written: what it means, where it can be told, the least rule that it breaks at its least line, and its typed
/// tree. It takes time linear in the text.
pub fn check_type(
    alloc: Global,
    s: &Scope<'_>,
    spec: &TypeSpec<u32>,
) -> Result<CheckedType, NoMemory>
    ensures { IfOk result (λ c. ChecksType c s.now spec.now) }
{
    let e = check_element(alloc, s, &spec.element)?;
    let CheckedElement {
        kind,
        least,
        element,
    } = e;
    let inner = Told { kind, least };
    let found = check_arrays(alloc, s, spec.arrays.as_slice(), inner)?;
    let Arrays { told, arrays } = found;
    let Told { kind, least } = told;
    let arrays = turned_arrays(alloc, arrays)?;
    Ok(CheckedType {
        kind,
        least,
        tree: TypeSpec { arrays, element },
    })
}
