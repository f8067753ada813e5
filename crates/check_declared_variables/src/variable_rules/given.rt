//! Initial values, where they are given.

ghost use Rattle.std.specs.Prelude.{IfOk, option_map};
ghost use Rattle.st_tree.specs.Initial.{initial_of};
ghost use Rattle.check_declared_variables.specs.variable_rules.Given.{ChecksGiven};

use check_initial_values::{CheckedInitial, check_initial};
use name_resolution::Scope;
use plc_text::{Code, NoMemory};
use st_tree::{Init, Note};
use st_types::StType;
use std::alloc::Global;

/// What is found out about an initial value that may be given.
#[derive(Drop)]
pub struct CheckedGiven {
    /// The least rule that is broken, with its least line.
    pub least: Option<(Code, u32)>,
    pub initial: Option<Init<Note>>,
}

/// Checks an initial value of a type, where one is given.
pub fn check_given(
    alloc: Global,
    s: &Scope<'_>,
    kind: &Option<StType>,
    initial: &Option<Init<u32>>,
) -> Result<CheckedGiven, NoMemory>
    ensures { IfOk result (λ c. ChecksGiven c s.now kind.now (option_map initial_of initial.now)) }
{
    match initial {
        Some(init) => {
            let c = check_initial(alloc, s, init, kind.as_ref())?;
            let CheckedInitial { least, tree } = c;
            Ok(CheckedGiven {
                least,
                initial: Some(tree),
            })
        }
        None => Ok(CheckedGiven {
            least: None,
            initial: None,
        }),
    }
}
