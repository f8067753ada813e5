//! Results of routines.

ghost use Rattle.std.specs.Prelude.{◌≡◌, IfOk};
ghost use Rattle.check_declared_variables.specs.variable_rules.Results.{ChecksResult};
ghost use Rattle.check_declared_variables.specs.variable_rules.Private.Results.{IsResult};

use crate::type_rules::{CheckedType, check_type};
use name_resolution::Scope;
use plc_text::{Code, NoMemory};
use section_rules::instance_out_of_place;
use st_rules::earlier;
use st_tree::{Note, TypeSpec};
use std::alloc::Global;

/// What is found out about the type of a result that may be there.
pub struct CheckedResult {
    /// The least rule that is broken, with its least line.
    pub least: Option<(Code, u32)>,
    pub result: Option<TypeSpec<Note>>,
}

// By hand, so that a drop is one call: a derived one is written out wherever a `?` may need it.
impl Drop for CheckedResult {
    fn drop(self) {
        drop(self.into_result());
    }
}

impl CheckedResult {
    /// The typed tree alone.
    pub fn into_result(self) -> Option<TypeSpec<Note>>
        ensures { result ≡ self.result }
    {
        let CheckedResult {
            least: _,
            result: kind,
        } = self;
        kind
    }
}

/// The type of a result in a heading at this line, which is no instance.
fn result_of(line: u32, found: CheckedType) -> CheckedResult
    ensures { IsResult result line found }
{
    let place = instance_out_of_place(line, false, &found.kind);
    CheckedResult {
        least: earlier(found.least, place),
        result: Some(found.into_tree()),
    }
}

/// Checks the type of the result of a routine whose heading stands at this line, where it has one.
pub fn check_result(
    alloc: Global,
    s: &Scope<'_>,
    line: u32,
    spec: &Option<TypeSpec<u32>>,
) -> Result<CheckedResult, NoMemory>
    ensures { IfOk result (λ c. ChecksResult c s.now line spec.now) }
{
    match spec {
        Some(spec) => {
            let found = check_type(alloc, s, spec)?;
            Ok(result_of(line, found))
        }
        None => Ok(CheckedResult {
            least: None,
            result: None,
        }),
    }
}
