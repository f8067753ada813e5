//! Conditions, and what a CASE selects by.

ghost use Rattle.std.specs.Prelude.{◌≡◌, ◌||◌, IfOk};
ghost use Rattle.st_tree.specs.Expression.{expression_of};
ghost use Rattle.st_rules.specs.declared.asked.Asked.TheVariants.{Anything, Wanted};
ghost use Rattle.st_rules.specs.Faults.{least};
ghost use Rattle.st_rules.specs.Kinds as kinds;
ghost use Rattle.st_rules.specs.Literals as literals;
ghost use Rattle.st_rules.specs.Expressions as expressions;
ghost use Rattle.st_rules.specs.Statements as statements;
ghost use Rattle.check_nodes.specs.Found.{Finds};

use check_nodes::{Checked, line_of};
use name_resolution::Scope;
use plc_text::{Code, NoMemory};
use st_check_expr::check_whole;
use st_operators::{asked_of, is_number};
use st_rules::{Asked, earlier, when};
use st_tree::Expr;
use st_types::{Elem, StType};
use std::alloc::Global;

/// Checks a condition.
pub fn check_condition(alloc: Global, s: &Scope<'_>, e: &Expr<u32>) -> Result<Checked, NoMemory>
    ensures { IfOk result (λ c. Finds c (expressions.type_of s.now (Wanted kinds.boolean) (expression_of e.now)) (statements.condition_faults s.now (expression_of e.now)) (expressions.typed s.now (Wanted kinds.boolean) (expression_of e.now))) }
{
    let asked = Asked::Wanted(StType::Elementary(Elem::Bool));
    check_whole(alloc, s, e, &asked)
}

fn selects(t: &StType) -> bool
    ensures { result ≡ (kinds.is_elementary kinds.is_number t.now || kinds.is_enumeration t.now) }
{
    match t {
        StType::Elementary(e) => is_number(*e),
        StType::Enumeration(_) => true,
        _ => false,
    }
}

/// What is no integer, no bit string and no enumeration.
fn selector_fault(line: u32, t: &Option<StType>) -> Option<(Code, u32)>
    ensures { result ≡ least (statements.selector_unsuited line t.now) }
{
    match t {
        Some(t) => when(!selects(t), Code::E07, line),
        None => None,
    }
}

/// Checks what a CASE selects by.
#[tactic(auto, using(st_rules::proofs::FaultLaws::faults))]
pub fn check_choice(alloc: Global, s: &Scope<'_>, e: &Expr<u32>) -> Result<Checked, NoMemory>
    ensures { IfOk result (λ c. Finds c (expressions.type_of s.now Anything (expression_of e.now)) (statements.case_selector_faults s.now (expression_of e.now)) (expressions.typed s.now Anything (expression_of e.now))) }
{
    let mut x = check_whole(alloc, s, e, &Asked::Anything)?;
    let own = selector_fault(line_of(e), &x.told);
    x.least = earlier(x.least, own);
    Ok(x)
}

/// What the labels of a CASE are asked for, which selects by this.
pub fn choice_asked(alloc: Global, choice: &Checked) -> Result<Asked, NoMemory>
    ensures { IfOk result (λ a. a ≡ literals.asked_of choice.now.told) }
{
    match &choice.told {
        Some(t) => {
            let copy = t.copy(alloc)?;
            Ok(asked_of(Some(copy)))
        }
        None => Ok(asked_of(None)),
    }
}
