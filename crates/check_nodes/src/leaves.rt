//! Expressions without parts that are expressions.

ghost use Rattle.std.specs.Prelude.{◌≡◌, IfOk, Some, []};
ghost use Rattle.st_types.specs.declared.st_type.StType.TheVariants as type;
ghost use Rattle.st_tree.specs.declared.program.Target.TheVariants as target;
ghost use Rattle.st_tree.specs.Expression as tree;
ghost use Rattle.st_rules.specs.Kinds as kinds;
ghost use Rattle.st_rules.specs.Literals as literals;
ghost use Rattle.st_rules.specs.Expressions as expressions;
ghost use Rattle.check_nodes.specs.Found.{Finds};

use crate::found::{Checked, noted};
use check_places::note;
use plc_text::{NoMemory, Text};
use st_operators::{
    duration_fault, int_fault, int_type, literal_fault, literal_type, negative_fault,
    negative_type, null_type,
};
use st_rules::Asked;
use st_tree::{Expr, Literal, Note, Target};
use st_types::{Boxed, Elem, StType};
use std::alloc::Global;

/// An int.
#[tactic(auto, using(crate::proofs::Views::int_view))]
pub fn int(alloc: Global, line: u32, digits: &Text, asked: &Asked) -> Result<Checked, NoMemory>
    ensures { IfOk result (λ c. Finds c (literals.int_type asked.now digits.now) (literals.int_faults line digits.now (literals.int_type asked.now digits.now))
        (tree.Int (expressions.note line (literals.int_type asked.now digits.now) target.Nothing) digits.now)) }
{
    let told = int_type(asked, digits.as_str());
    let least = int_fault(line, digits.as_str(), &told);
    let note = noted(alloc, line, &told)?;
    let digits = Text::copy(alloc, digits.as_str())?;
    Ok(Checked {
        told,
        least,
        tree: Expr::Int(note, digits),
    })
}

/// An int with its sign.
#[tactic(auto, using(crate::proofs::Views::negative_views))]
pub fn negative(
    alloc: Global,
    line: u32,
    int_line: u32,
    digits: &Text,
    asked: &Asked,
) -> Result<Checked, NoMemory>
    ensures { IfOk result (λ c. Finds c (literals.negative_type asked.now) (literals.negative_faults line digits.now (literals.negative_type asked.now))
        (tree.Negate (expressions.note line (literals.negative_type asked.now) target.Nothing) (tree.Int (expressions.note int_line (literals.negative_type asked.now) target.Nothing) digits.now))) }
{
    let told = negative_type(asked);
    let least = negative_fault(line, digits.as_str(), &told);
    let outer = noted(alloc, line, &told)?;
    let inner = noted(alloc, int_line, &told)?;
    let digits = Text::copy(alloc, digits.as_str())?;
    let int = Boxed::new(alloc, Expr::Int(inner, digits))?;
    Ok(Checked {
        told,
        least,
        tree: Expr::Negate(outer, int),
    })
}

/// A literal behind its type.
#[tactic(auto, using(crate::proofs::Views::typed_view))]
pub fn typed_literal(
    alloc: Global,
    line: u32,
    kind: Elem,
    literal: &Literal,
) -> Result<Checked, NoMemory>
    ensures { IfOk result (λ c. Finds c (literals.typed_literal_type kind literal.now) (literals.typed_literal_faults line kind literal.now)
        (tree.Typed (expressions.note line (literals.typed_literal_type kind literal.now) target.Nothing) kind literal.now)) }
{
    let told = literal_type(kind, literal);
    let least = literal_fault(line, kind, literal);
    let note = noted(alloc, line, &told)?;
    let literal = literal.copy(alloc)?;
    Ok(Checked {
        told,
        least,
        tree: Expr::Typed(note, kind, literal),
    })
}

/// A duration.
#[tactic(auto, using(crate::proofs::Views::time_view))]
pub fn duration(alloc: Global, line: u32, text: &Text) -> Result<Checked, NoMemory>
    ensures { IfOk result (λ c. Finds c (Some kinds.time) (literals.time_past_32_bits line text.now) (tree.Time (expressions.note line (Some kinds.time) target.Nothing) text.now)) }
{
    let least = duration_fault(line, text.as_str());
    let text = Text::copy(alloc, text.as_str())?;
    let note = of_kind(line, Elem::Time);
    Ok(Checked {
        told: Some(StType::Elementary(Elem::Time)),
        least,
        tree: Expr::Time(note, text),
    })
}

fn of_kind(line: u32, kind: Elem) -> Note
    ensures { result ≡ expressions.note line (Some (type.Elementary kind)) target.Nothing }
{
    note(line, Some(StType::Elementary(kind)), Target::Nothing)
}

/// TRUE.
#[tactic(auto, using(crate::proofs::Views::true_view))]
pub fn truth(line: u32) -> Checked
    ensures { Finds result (Some kinds.boolean) [] (tree.True (expressions.note line (Some kinds.boolean) target.Nothing)) }
{
    Checked {
        told: Some(StType::Elementary(Elem::Bool)),
        least: None,
        tree: Expr::True(of_kind(line, Elem::Bool)),
    }
}

/// FALSE.
#[tactic(auto, using(crate::proofs::Views::false_view))]
pub fn falsehood(line: u32) -> Checked
    ensures { Finds result (Some kinds.boolean) [] (tree.False (expressions.note line (Some kinds.boolean) target.Nothing)) }
{
    Checked {
        told: Some(StType::Elementary(Elem::Bool)),
        least: None,
        tree: Expr::False(of_kind(line, Elem::Bool)),
    }
}

/// TIME().
#[tactic(auto, using(crate::proofs::Views::now_view))]
pub fn now(line: u32) -> Checked
    ensures { Finds result (Some kinds.time) [] (tree.Now (expressions.note line (Some kinds.time) target.Nothing)) }
{
    Checked {
        told: Some(StType::Elementary(Elem::Time)),
        least: None,
        tree: Expr::Now(of_kind(line, Elem::Time)),
    }
}

/// NULL.
#[tactic(auto, using(crate::proofs::Views::null_view))]
pub fn null(alloc: Global, line: u32, asked: &Asked) -> Result<Checked, NoMemory>
    ensures { IfOk result (λ c. Finds c (Some (literals.null_type asked.now)) [] (tree.Null (expressions.note line (Some (literals.null_type asked.now)) target.Nothing))) }
{
    let told = Some(null_type(asked));
    let note = noted(alloc, line, &told)?;
    Ok(Checked {
        told,
        least: None,
        tree: Expr::Null(note),
    })
}
