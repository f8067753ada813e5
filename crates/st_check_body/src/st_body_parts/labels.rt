//! Labels of a CASE.

ghost use Rattle.std.specs.Prelude.{◌≡◌, true, false, nat_lt, pos, neg_ℤ, IfOk};
ghost use Rattle.st_types.specs.declared.elem.Elem.{Elem as Kind};
ghost use Rattle.st_tree.specs.Number.{number_of};
ghost use Rattle.st_tree.specs.declared.program.Target.TheVariants as target;
ghost use Rattle.st_tree.specs.declared.statement.LabelEnd.TheVariants as label;
ghost use Rattle.st_rules.specs.declared.asked.Asked.{Asked as AnAsked};
ghost use Rattle.st_rules.specs.Faults.{least};
ghost use Rattle.st_rules.specs.Literals as literals;
ghost use Rattle.st_rules.specs.Scope as scope;
ghost use Rattle.st_rules.specs.Scope.{Scope as AScope};
ghost use Rattle.st_rules.specs.Expressions as expressions;
ghost use Rattle.st_rules.specs.Statements as statements;
ghost use Rattle.name_resolution.specs.Meant.{meant, qualifier};
ghost use Rattle.st_check_body.specs.st_body_parts.Found.{EndIs, EndFinds, LabelFinds, LabelsFind};

use crate::st_body_parts::counting::{bare_fault, meant_type};
use crate::st_body_parts::found::{CheckedEnd, CheckedLabel, CheckedLabels};
use crate::st_body_parts::nodes::{no_label, with_label};
use check_calls::value_fault;
use check_places::{note, value_target};
use name_resolution::{Meant, Qualifier, Scope};
use plc_text::{Code, NoMemory, Text};
use st_operators::{
    int_fault, int_type, literal_fault, literal_type, negative_fault, negative_type,
};
use st_rules::{Asked, at, copied, earlier, when};
use st_tree::{Label, LabelEnd, Literal, Note, Target, number_of};
use st_types::{Elem, StType};
use std::alloc::Global;

// ---- literals

/// The value of an int, as the target of its note; nothing where it has more than 64 bits.
fn int_target(digits: &str) -> Target
    ensures { nat_lt 18_446_744_073_709_551_615 (number_of digits.now) ≡ false → result ≡ target.Constant (pos (number_of digits.now)) }
{
    match number_of(digits) {
        Some(n) => Target::Constant(i128::from(n)),
        None => Target::Nothing,
    }
}

/// The same with its sign.
fn negative_target(digits: &str) -> Target
    ensures { nat_lt 18_446_744_073_709_551_615 (number_of digits.now) ≡ false → result ≡ target.Constant (neg_ℤ (pos (number_of digits.now))) }
{
    match number_of(digits) {
        Some(n) => Target::Constant(-i128::from(n)),
        None => Target::Nothing,
    }
}

fn check_int(alloc: Global, line: u32, digits: &Text, asked: &Asked) -> Result<CheckedEnd, NoMemory>
    ensures { (s : AScope) → IfOk result (λ c. EndIs c s asked.now (label.Int line digits.now)) }
{
    let text = digits.as_str();
    let told = int_type(asked, text);
    let least = int_fault(line, text, &told);
    let shown = copied(alloc, &told)?;
    let own = note(line, shown, int_target(text));
    let copy = Text::copy(alloc, text)?;
    Ok(CheckedEnd {
        told,
        least,
        end: LabelEnd::Int(own, copy),
    })
}

fn check_negative(
    alloc: Global,
    line: u32,
    digits: &Text,
    asked: &Asked,
) -> Result<CheckedEnd, NoMemory>
    ensures { (s : AScope) → IfOk result (λ c. EndIs c s asked.now (label.Negative line digits.now)) }
{
    let text = digits.as_str();
    let told = negative_type(asked);
    let least = negative_fault(line, text, &told);
    let shown = copied(alloc, &told)?;
    let own = note(line, shown, negative_target(text));
    let copy = Text::copy(alloc, text)?;
    Ok(CheckedEnd {
        told,
        least,
        end: LabelEnd::Negative(own, copy),
    })
}

/// A typed literal's value; nothing where no kind holds it.
#[tactic(auto, using(st_operators::proofs::LiteralLaws::past_negative))]
fn literal_target(literal: &Literal) -> Target
    ensures { (e : Kind) → literals.holds e (literals.literal_number literal.now) ≡ true → result ≡ target.Constant (literals.literal_number literal.now) }
{
    match literal {
        Literal::Int(digits) => int_target(digits.as_str()),
        Literal::Negative(digits) => negative_target(digits.as_str()),
        Literal::True => Target::Constant(1),
        Literal::False => Target::Constant(0),
    }
}

fn check_literal(
    alloc: Global,
    line: u32,
    kind: Elem,
    literal: &Literal,
) -> Result<CheckedEnd, NoMemory>
    ensures { (s : AScope) (asked : AnAsked) → IfOk result (λ c. EndIs c s asked (label.Typed line kind literal.now)) }
{
    let told = literal_type(kind, literal);
    let least = literal_fault(line, kind, literal);
    let shown = copied(alloc, &told)?;
    let own = note(line, shown, literal_target(literal));
    let copy = literal.copy(alloc)?;
    Ok(CheckedEnd {
        told,
        least,
        end: LabelEnd::Typed(own, kind, copy),
    })
}

// ---- names

fn is_no_constant(m: Option<Meant<'_>>) -> bool
    ensures { (s : AScope) → result ≡ statements.is_no_constant s (meant m.entry) }
{
    match m {
        Some(Meant::Variable(_, v)) => !v.constant,
        Some(Meant::Enumerator(_, _)) => false,
        Some(Meant::Method(_)) => false,
        Some(Meant::Function(_, _)) => false,
        None => false,
    }
}

#[tactic(auto, using(st_rules::proofs::FaultLaws::faults))]
fn check_name(alloc: Global, s: &Scope<'_>, line: u32, name: &Text) -> Result<CheckedEnd, NoMemory>
    ensures { (asked : AnAsked) → IfOk result (λ c. EndIs c s.now asked (label.Name line name.now)) }
{
    let m = s.sought(false, name);
    let bare = bare_fault(alloc, s, line, name)?;
    let own = when(is_no_constant(m), Code::E05, line);
    let found = earlier(bare, own);
    let told = meant_type(alloc, m)?;
    let shown = meant_type(alloc, m)?;
    let note = note(line, shown, value_target(m));
    let name = Text::copy(alloc, name.as_str())?;
    Ok(CheckedEnd {
        told,
        least: found,
        end: LabelEnd::Name(note, name),
    })
}

// ---- values of enumerations

#[tactic(auto, unfolding(st_rules::specs::Expressions::enumerator_type))]
fn value_type(s: &Scope<'_>, before: Qualifier, name: &Text) -> Option<StType>
    ensures { result ≡ expressions.enumerator_type s.now (qualifier before) name.now }
{
    match before {
        Qualifier::Values(n) => match s.value_of(n, name) {
            Some(_) => Some(StType::Enumeration(n)),
            None => None,
        },
        Qualifier::Untold => None,
        Qualifier::Nothing => None,
    }
}

#[tactic(auto, unfolding(st_rules::specs::Expressions::note_of_value))]
fn named_value(s: &Scope<'_>, before: Qualifier, name: &Text) -> Target
    ensures { result ≡ expressions.note_of_value s.now (qualifier before) name.now }
{
    match before {
        Qualifier::Values(n) => match s.value_of(n, name) {
            Some(k) => Target::Enumerator(k),
            None => Target::Nothing,
        },
        Qualifier::Untold => Target::Nothing,
        Qualifier::Nothing => Target::Nothing,
    }
}

/// No enumeration before `#` or `.`, or no value of it behind.
#[tactic(auto, unfolding(st_rules::specs::Expressions::enumerator_not_found))]
fn not_found(
    s: &Scope<'_>,
    line: u32,
    name_line: u32,
    before: Qualifier,
    name: &Text,
) -> Option<(Code, u32)>
    ensures hash { result ≡ least (expressions.enumerator_not_found s.now line name_line (qualifier before) name.now) }
    ensures dot { result ≡ least (statements.field_not_found s.now line name_line (qualifier before) name.now) }
{
    match before {
        Qualifier::Values(n) => when(s.value_of(n, name).is_none(), Code::E05, name_line),
        Qualifier::Untold => None,
        Qualifier::Nothing => at(Code::E05, line),
    }
}

fn value_note(s: &Scope<'_>, line: u32, before: Qualifier, name: &Text) -> Note
    ensures { result ≡ expressions.note line (expressions.enumerator_type s.now (qualifier before) name.now) (expressions.note_of_value s.now (qualifier before) name.now) }
{
    note(
        line,
        value_type(s, before, name),
        named_value(s, before, name),
    )
}

/// `Type#Name` or `Type.Name`, by what stands before the sign.
fn check_value(
    alloc: Global,
    s: &Scope<'_>,
    line: u32,
    type_name: &Text,
    name_line: u32,
    name: &Text,
) -> Result<CheckedEnd, NoMemory>
    ensures { (asked : AnAsked) → IfOk result (λ c. EndIs c s.now asked (label.Enumerator line type_name.now name_line name.now)) }
{
    let before = s.type_qualifier(type_name);
    let told = value_type(s, before, name);
    let least = not_found(s, line, name_line, before, name);
    let outer = value_note(s, line, before, name);
    let inner = value_note(s, name_line, before, name);
    let type_name = Text::copy(alloc, type_name.as_str())?;
    let name = Text::copy(alloc, name.as_str())?;
    Ok(CheckedEnd {
        told,
        least,
        end: LabelEnd::Enumerator(outer, type_name, inner, name),
    })
}

fn check_field(
    alloc: Global,
    s: &Scope<'_>,
    line: u32,
    type_name: &Text,
    name_line: u32,
    name: &Text,
) -> Result<CheckedEnd, NoMemory>
    ensures { (asked : AnAsked) → IfOk result (λ c. EndIs c s.now asked (label.Field line type_name.now name_line name.now)) }
{
    let before = s.dot_qualifier(type_name);
    let told = value_type(s, before, name);
    let least = not_found(s, line, name_line, before, name);
    let outer = value_note(s, line, before, name);
    let inner = value_note(s, name_line, before, name);
    let type_name = Text::copy(alloc, type_name.as_str())?;
    let name = Text::copy(alloc, name.as_str())?;
    Ok(CheckedEnd {
        told,
        least,
        end: LabelEnd::Field(outer, type_name, inner, name),
    })
}

// ---- labels

fn end_line(x: &LabelEnd<u32>) -> u32
    ensures { result ≡ statements.end_line x.now }
{
    match x {
        LabelEnd::Int(line, _) => *line,
        LabelEnd::Negative(line, _) => *line,
        LabelEnd::Typed(line, _, _) => *line,
        LabelEnd::Name(line, _) => *line,
        LabelEnd::Enumerator(line, _, _, _) => *line,
        LabelEnd::Field(line, _, _, _) => *line,
    }
}

fn check_end(
    alloc: Global,
    s: &Scope<'_>,
    asked: &Asked,
    x: &LabelEnd<u32>,
) -> Result<CheckedEnd, NoMemory>
    ensures { IfOk result (λ c. EndIs c s.now asked.now x.now) }
{
    match x {
        LabelEnd::Int(line, digits) => check_int(alloc, *line, digits, asked),
        LabelEnd::Negative(line, digits) => check_negative(alloc, *line, digits, asked),
        LabelEnd::Typed(line, kind, literal) => check_literal(alloc, *line, *kind, literal),
        LabelEnd::Name(line, name) => check_name(alloc, s, *line, name),
        LabelEnd::Enumerator(line, type_name, name_line, name) => check_value(
            alloc, s, *line, type_name, *name_line, name,
        ),
        LabelEnd::Field(line, type_name, name_line, name) => check_field(
            alloc, s, *line, type_name, *name_line, name,
        ),
    }
}

/// An end, which is to be assigned to what is asked for.
fn check_suited(
    alloc: Global,
    s: &Scope<'_>,
    asked: &Asked,
    x: &LabelEnd<u32>,
) -> Result<CheckedEnd, NoMemory>
    ensures { IfOk result (λ c. EndFinds c s.now asked.now x.now) }
{
    let mut one = check_end(alloc, s, asked, x)?;
    let own = value_fault(s, end_line(x), asked, &one.told);
    let found = earlier(one.least, own);
    one.least = found;
    Ok(one)
}

/// Checks a label.
fn check_label(
    alloc: Global,
    s: &Scope<'_>,
    asked: &Asked,
    x: &Label<u32>,
) -> Result<CheckedLabel, NoMemory>
    ensures { IfOk result (λ c. LabelFinds c s.now asked.now x.now) }
{
    let first = check_suited(alloc, s, asked, &x.first)?;
    match &x.last {
        Some(last) => {
            let last = check_suited(alloc, s, asked, last)?;
            let found = earlier(first.least, last.least);
            Ok(CheckedLabel {
                least: found,
                label: Label {
                    first: first.into_end(),
                    last: Some(last.into_end()),
                },
            })
        }
        None => Ok(CheckedLabel {
            least: first.least,
            label: Label {
                first: first.into_end(),
                last: None,
            },
        }),
    }
}

/// Checks the labels of a case, which are asked for something.
pub fn check_labels(
    alloc: Global,
    s: &Scope<'_>,
    asked: &Asked,
    labels: &[Label<u32>],
) -> Result<CheckedLabels, NoMemory>
    ensures { IfOk result (λ c. LabelsFind c s.now asked.now labels.now) }
{
    let mut so_far = no_label(alloc);
    for label in labels {
        let one = check_label(alloc, s, asked, label)?;
        so_far = with_label(so_far, one)?;
    }
    Ok(so_far)
}
