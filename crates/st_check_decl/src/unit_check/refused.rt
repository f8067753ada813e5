//! Why a unit is refused.

ghost use Rattle.std.specs.Prelude.{◌≡◌, codes, false};
ghost use Rattle.plc_text.specs.Code.{is_e17};
ghost use Rattle.plc_text.specs.declared.code.Code.TheVariants.{E15};
ghost use Rattle.st_unit_rules.specs.UnitRefusal.{IsFirstBad, UnitRefusal};
ghost use Rattle.st_check_decl.specs.unit_check.Checking.{OnRefused};
ghost use Rattle.st_check_decl.specs.unit_check.Private.Refused.{IfRule, IsRefusal};

use crate::checked_declarations::Bad;
use plc_text::{Code, Denied, Refusal, Text};
use st_tree::Decl;
use std::alloc::Global;

/// The refusal of a unit by this rule, in the declaration of this name.
fn refusal(declaration: Text, code: Code, line: u32) -> Refusal
    requires { is_e17 code ≡ false }
    ensures { IsRefusal result code declaration line }
{
    Refusal {
        code,
        declaration,
        line,
        kind: None,
    }
}

/// Why there is no checked program of a unit with these declarations, where they are not all good.
pub fn denied_by(_decls: &[Decl<u32>], bad: Bad) -> Denied
    requires { IfRule bad (IsFirstBad _decls.now) }
    ensures { OnRefused result (λ r. UnitRefusal _decls.now r.code r.declaration r.line) }
{
    match bad {
        Bad::Rule(declaration, code, line) => Denied::Refused(refusal(declaration, code, line)),
        Bad::NoMemory => Denied::NoMemory,
    }
}

/// Why there is no checked program, where all declarations are good and none is a CONFIGURATION.
pub fn no_configuration(alloc: Global) -> Denied
    ensures { OnRefused result (λ r. IsRefusal r E15 (codes "-") 1) }
{
    match Text::copy(alloc, "-") {
        Ok(declaration) => Denied::Refused(refusal(declaration, Code::E15, 1)),
        Err(_) => Denied::NoMemory,
    }
}
