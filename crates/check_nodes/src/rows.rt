//! Rows of operators, one operand after the other.

ghost use Rattle.std.specs.Prelude.{◌≡◌, ◌&&◌, IfOk, true, None};
ghost use Rattle.st_tree.specs.Expression as tree;
ghost use Rattle.st_rules.specs.declared.asked.Asked.TheVariants.{Anything};
ghost use Rattle.st_rules.specs.Kinds as kinds;
ghost use Rattle.st_rules.specs.Expressions as expressions;
ghost use Rattle.check_nodes.specs.Rows.{Begins, Joins, Closes, EndsFront, Looks};

use crate::found::{Checked, noted};
use plc_text::{Code, Items, NoMemory};
use st_operators::{
    asked_of, is_arithmetic, is_number_type, number_asked, operands_fault, operation_type,
};
use st_rules::{Asked, asked_again, copied, earlier};
use st_tree::{Expr, Note, Operator, Tail};
use st_types::{Boxed, StType};
use std::alloc::Global;

/// A row so far.
pub struct Row {
    /// Whether all operands are untyped, with arithmetic operators between them.
    pub untyped: bool,
    /// None where the type cannot be told.
    pub told: Option<StType>,
    pub least: Option<(Code, u32)>,
    pub first: Expr<Note>,
    pub tails: Items<Tail<Note>>,
}

// By hand, so that a drop is one call: a derived one is written out wherever a `?` may need it.
impl Drop for Row {
    fn drop(self) {
        let (told, first, tails) = self.into_parts();
        drop(told);
        drop(first);
        drop(tails);
    }
}

impl Row {
    /// The type, the first operand and the operators with their operands.
    fn into_parts(self) -> (Option<StType>, Expr<Note>, Items<Tail<Note>>)
        ensures { result ≡ (self.told, self.first, self.tails) }
    {
        let Row {
            untyped: _,
            told,
            least: _,
            first,
            tails,
        } = self;
        (told, first, tails)
    }
}

/// A row of one operand, which is untyped or not, and is checked.
pub fn began(alloc: Global, untyped: bool, first: Checked) -> Row
    ensures { Begins result untyped first }
{
    let (told, least, tree) = first.into_parts();
    Row {
        untyped,
        told,
        least,
        first: tree,
        tails: Items::new(alloc),
    }
}

/// Whether a row is untyped behind one more operator and its operand.
fn stays_untyped(operator: Operator, untyped: bool, alone: bool) -> bool
    ensures { result ≡ (kinds.is_arithmetic operator && untyped && alone) }
{
    is_arithmetic(operator) && untyped && alone
}

/// An operator with its note and its operand.
fn tail_of(note: Note, operator: Operator, operand: Expr<Note>) -> Tail<Note>
    ensures { tree.tail_of result ≡ (note, operator, tree.expression_of operand) }
{
    Tail {
        note,
        operator,
        operand,
    }
}

/// The line at which an operator is refused that does not take a row of this type and the operand behind it: where an untyped operand cannot
/// take the type of the row, and has that of an int for it, the operand's own, since it is what is refused; else the operation's.
#[tactic(auto, unfolding(st_rules::specs::Expressions::unsuited_line))]
fn unsuited_line(
    alone: bool,
    own: u32,
    line: u32,
    row: &Option<StType>,
    operand: &Option<StType>,
) -> u32
    ensures { result ≡ expressions.unsuited_line alone own line row.now operand.now }
{
    if !alone {
        return line;
    }
    match (row, operand) {
        (Some(t), Some(u)) => if is_number_type(u) && !is_number_type(t) {
            own
        } else {
            line
        },
        _ => line,
    }
}

/// The row with an operator and its operand more, which begins at a line of its own, is untyped or not, and is checked. An operator that
/// does not take its operands is refused at its line; where an untyped operand cannot take the type beside it, that operand is refused
/// instead, at its own.
pub fn joined(
    alloc: Global,
    line: u32,
    operator: Operator,
    own: u32,
    alone: bool,
    mut row: Row,
    operand: Checked,
) -> Result<Row, NoMemory>
    ensures { IfOk result (λ r. Joins r line operator own alone row operand) }
{
    let refused = unsuited_line(alone, own, line, &row.told, &operand.told);
    let fault = operands_fault(refused, operator, &row.told, &operand.told);
    let whole = operation_type(operator, &row.told, &operand.told);
    let note = noted(alloc, line, &whole)?;
    row.untyped = stays_untyped(operator, row.untyped, alone);
    row.least = earlier(earlier(row.least, operand.least), fault);
    row.told = whole;
    row.tails
        .push(tail_of(note, operator, operand.into_tree()))?;
    Ok(row)
}

/// The row as an expression.
#[tactic(auto, using(crate::proofs::Views::chain_view))]
pub fn closed(alloc: Global, line: u32, row: Row) -> Result<Checked, NoMemory>
    ensures { IfOk result (λ c. Closes c line row) }
{
    let note = noted(alloc, line, &row.told)?;
    let least = row.least;
    let (told, first, tails) = row.into_parts();
    let first = Boxed::new(alloc, first)?;
    Ok(Checked {
        told,
        least,
        tree: Expr::Chain(note, first, tails),
    })
}

/// What the first operand of a row is asked for, or what stands behind a sign: nothing where it has a type of its own.
#[tactic(auto, unfolding(st_rules::specs::Expressions::front_asked))]
pub fn front_asked(untyped: bool, asked: Asked) -> Asked
    ensures { result ≡ expressions.front_asked untyped asked }
{
    if untyped { asked } else { Asked::Anything }
}

/// What an untyped operand behind a row is asked for.
#[tactic(auto, unfolding(st_rules::specs::Expressions::operand_asked))]
pub fn operand_asked(alloc: Global, row: &Row, asked: &Asked) -> Result<Asked, NoMemory>
    ensures { IfOk result (λ a. a ≡ expressions.operand_asked row.now.untyped true asked.now row.now.told) }
{
    if row.untyped {
        let a = asked_again(alloc, asked)?;
        Ok(a)
    } else {
        let told = copied(alloc, &row.told)?;
        Ok(asked_of(told))
    }
}

/// What an untyped front of a row is asked for, and the operand that ends it where one with a type does, checked.
pub struct Ahead {
    pub asked: Asked,
    pub kept: Option<Checked>,
}

// By hand, so that a drop is one call: a derived one is written out wherever a `?` may need it.
impl Drop for Ahead {
    fn drop(self) {
        let (asked, kept) = self.into_parts();
        drop(asked);
        drop(kept);
    }
}

impl Ahead {
    /// What the front is asked for, and the operand that ends it.
    pub fn into_parts(self) -> (Asked, Option<Checked>)
        ensures { result ≡ (self.asked, self.kept) }
    {
        let Ahead { asked, kept } = self;
        (asked, kept)
    }
}

/// A front that ends at an operand with a type of its own.
pub fn ended_by(alloc: Global, operand: Checked) -> Result<Ahead, NoMemory>
    ensures { IfOk result (λ a. EndsFront a operand) }
{
    let told = copied(alloc, &operand.told)?;
    Ok(Ahead {
        asked: asked_of(told),
        kept: Some(operand),
    })
}

/// A front that is asked for nothing.
pub fn asked_nothing() -> Ahead
    ensures asked { result.asked ≡ Anything }
    ensures kept { result.kept ≡ None }
{
    Ahead {
        asked: Asked::Anything,
        kept: None,
    }
}

/// The same front, with an operand before it or not.
pub fn behind(passed: bool, ahead: Ahead) -> Ahead
    ensures { Looks result passed ahead.asked ahead.kept }
{
    let (asked, kept) = ahead.into_parts();
    if passed {
        Ahead {
            asked: number_asked(&asked),
            kept,
        }
    } else {
        Ahead { asked, kept }
    }
}

/// A front to the row's end.
pub fn to_the_end(alloc: Global, passed: bool, asked: &Asked) -> Result<Ahead, NoMemory>
    ensures { IfOk result (λ a. Looks a passed asked.now None) }
{
    let copy = asked_again(alloc, asked)?;
    Ok(behind(
        passed,
        Ahead {
            asked: copy,
            kept: None,
        },
    ))
}
