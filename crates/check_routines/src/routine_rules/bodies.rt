//! Bodies of routines, programs and function blocks.

ghost use Rattle.std.specs.Prelude.{◌≡◌, IfOk};
ghost use Rattle.check_routines.specs.routine_rules.Bodies.{FindsBody};
ghost use Rattle.check_routines.specs.routine_rules.Private.Bodies.{IsRefused};

use name_resolution::Scope;
use plc_text::{Code, Items, NoMemory};
use st_check_body::check_body;
use st_check_expr::Broken;
use st_tree::{Note, Stmt};
use std::alloc::Global;

/// What is found out about a body.
#[derive(Drop)]
pub struct FoundBody {
    /// The least rule that is broken, with its least line.
    pub least: Option<(Code, u32)>,
    /// Its statements, where no rule is broken.
    pub body: Items<Stmt<Note>>,
}

/// A body that is refused for a rule.
fn refused(alloc: Global, broken: Broken) -> Result<FoundBody, NoMemory>
    ensures { IfOk result (λ c. IsRefused c.least broken) }
{
    match broken {
        Broken::Rule(code, line) => Ok(FoundBody {
            least: Some((code, line)),
            body: Items::new(alloc),
        }),
        Broken::NoMemory => Err(NoMemory),
    }
}

/// Checks a body in its scope: the least rule that it breaks, and its typed statements, where it breaks none.
pub fn body_found(alloc: Global, s: &Scope<'_>, body: &[Stmt<u32>]) -> Result<FoundBody, NoMemory>
    ensures { IfOk result (λ c. FindsBody c s.now body.now) }
{
    match check_body(alloc, s, body) {
        Ok(body) => Ok(FoundBody { least: None, body }),
        Err(broken) => {
            let c = refused(alloc, broken)?;
            Ok(c)
        }
    }
}
