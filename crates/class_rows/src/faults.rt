//! The rules that a class and its methods break.

ghost use Rattle.std.specs.Prelude.{◌≡◌, not, ◌&&◌};
ghost use Rattle.std.specs.Option.{is_none};
ghost use Rattle.st_rules.specs.Faults.{least};
ghost use Rattle.st_rules.specs.Modifiers.{same_access};
ghost use Rattle.class_rows.specs.Faults as faults;

use crate::rows::{ClassRow, MethodRow};
use plc_text::Code;
use st_rules::{Access, earlier, when};

fn extends_block(row: &ClassRow, block: bool) -> bool
    ensures { result ≡ (not row.now.is_block && block) }
{
    !row.is_block && block
}

fn has_in_outs_over_block(row: &ClassRow, block: bool) -> bool
    ensures { result ≡ (row.now.is_block && block && row.now.has_in_outs) }
{
    row.is_block && block && row.has_in_outs
}

/// The least of the rules of bases that a class breaks: whether it lies on a cycle, and whether its base is FINAL and a function block.
#[tactic(auto, using(st_rules::proofs::FaultLaws::faults))]
pub fn base_fault(
    row: &ClassRow,
    on_cycle: bool,
    is_final: bool,
    is_block: bool,
) -> Option<(Code, u32)>
    ensures { result ≡ least (faults.row_base_faults row.now on_cycle is_final is_block) }
{
    let cycle = when(on_cycle, Code::E06, row.line);
    let final_base = when(is_final, Code::E12, row.line);
    let block = when(extends_block(row, is_block), Code::E12, row.line);
    let in_outs = when(has_in_outs_over_block(row, is_block), Code::E12, row.line);
    earlier(earlier(earlier(cycle, final_base), block), in_outs)
}

fn same_access(a: Access, b: Access) -> bool
    ensures { result ≡ same_access a b }
{
    match a {
        Access::Public => matches!(b, Access::Public),
        Access::Protected => matches!(b, Access::Protected),
        Access::Private => matches!(b, Access::Private),
    }
}

fn is_final_over(over: Option<MethodRow>) -> bool
    ensures { result ≡ faults.is_final_over over }
{
    match over {
        Some(over) => over.is_final,
        None => false,
    }
}

fn is_private_over(over: Option<MethodRow>) -> bool
    ensures { result ≡ faults.is_private_over over }
{
    match over {
        Some(over) => same_access(over.access, Access::Private),
        None => false,
    }
}

fn has_other_access(method: &MethodRow, over: Option<MethodRow>) -> bool
    ensures { result ≡ faults.has_other_access method.now over }
{
    match over {
        Some(over) => !same_access(method.access, over.access),
        None => false,
    }
}

fn overrides_nothing(method: &MethodRow, over: Option<MethodRow>) -> bool
    ensures { result ≡ (method.now.is_override && is_none over) }
{
    match over {
        Some(_) => false,
        None => method.is_override,
    }
}

fn is_bad_override(method: &MethodRow, over: Option<MethodRow>, other: bool) -> bool
    ensures { result ≡ faults.is_bad_override method.now over other }
{
    is_final_over(over)
        || is_private_over(over)
        || has_other_access(method, over)
        || other
        || overrides_nothing(method, over)
}

/// Whether a method breaks a rule, by the method that it overrides, whether that has another signature, whether the method has not
/// the signature that its name asks for, and whether its class is abstract.
pub fn is_bad_method(
    method: &MethodRow,
    over: Option<MethodRow>,
    other: bool,
    no_hook: bool,
    in_abstract: bool,
) -> bool
    ensures { result ≡ faults.is_bad_method method.now over other no_hook in_abstract }
{
    is_bad_override(method, over, other)
        || method.is_hook && method.is_abstract
        || no_hook
        || method.is_abstract && method.has_statements
        || method.is_abstract && !in_abstract
}
