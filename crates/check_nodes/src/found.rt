//! What is found out about an expression.

ghost use Rattle.std.specs.Prelude.{◌≡◌, IfOk};
ghost use Rattle.st_tree.specs.declared.program.Target.TheVariants as target;
ghost use Rattle.st_rules.specs.Expressions as expressions;

use check_places::note;
use plc_text::{Code, NoMemory};
use st_rules::copied;
use st_tree::{Expr, Note, Target};
use st_types::StType;
use std::alloc::Global;

/// The type of an expression, the least rule that it breaks, and its typed tree.
pub struct Checked {
    /// None where it cannot be told.
    pub told: Option<StType>,
    /// With its line.
    pub least: Option<(Code, u32)>,
    pub tree: Expr<Note>,
}

// By hand, so that a drop is one call: a derived one is written out wherever a `?` may need it.
impl Drop for Checked {
    fn drop(self) {
        let Checked {
            told,
            least: _,
            tree,
        } = self;
        drop(told);
        drop(tree);
    }
}

impl Checked {
    /// The type, the least rule and the typed tree.
    pub fn into_parts(self) -> (Option<StType>, Option<(Code, u32)>, Expr<Note>)
        ensures { result ≡ (self.told, self.least, self.tree) }
    {
        let Checked { told, least, tree } = self;
        (told, least, tree)
    }

    /// The type alone.
    pub fn into_told(self) -> Option<StType>
        ensures { result ≡ self.told }
    {
        let (told, _, tree) = self.into_parts();
        drop(tree);
        told
    }

    /// The typed tree alone.
    pub fn into_tree(self) -> Expr<Note>
        ensures { result ≡ self.tree }
    {
        let (told, _, tree) = self.into_parts();
        drop(told);
        tree
    }
}

/// The note of a node of this type that names nothing.
pub fn noted(alloc: Global, line: u32, t: &Option<StType>) -> Result<Note, NoMemory>
    ensures { IfOk result (λ n. n ≡ expressions.note line t.now target.Nothing) }
{
    let copy = copied(alloc, t)?;
    Ok(note(line, copy, Target::Nothing))
}
