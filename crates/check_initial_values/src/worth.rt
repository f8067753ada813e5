//! Constant expressions with their values.

ghost use Rattle.std.specs.Prelude.{◌≡◌, IfOk};
ghost use Rattle.st_tree.specs.Expression.{expression_of};
ghost use Rattle.st_unit_rules.specs.Initials as initials;
ghost use Rattle.constant_folding.specs.constant_values.Outcome.{outcome};
ghost use Rattle.check_initial_values.specs.Worth.{noted};

use constant_folding::Outcome;
use st_tree::{Expr, Note, Target};
use st_types::StType;

fn outcome_target(value: Outcome) -> Target
    ensures { result ≡ initials.outcome_target (outcome value) }
{
    match value {
        Outcome::Number(z) => Target::Constant(z),
        Outcome::DividesByZero(_) => Target::Nothing,
        Outcome::Untold => Target::Nothing,
    }
}

/// The note with what an expression comes to.
fn with_target(mut note: Note, target: Target) -> Note
    ensures { result ≡ noted target note }
{
    note.target = target;
    note
}

/// The typed tree of a constant expression, with what it comes to in the note of the whole: a number as a constant, else nothing.
#[tactic(auto, using(st_tree::specs::Expression::expression_views))]
pub fn with_value(tree: Expr<Note>, value: Outcome) -> Expr<Note>
    ensures { expression_of result ≡ initials.with_note (noted (initials.outcome_target (outcome value))) (expression_of tree) }
{
    let target = outcome_target(value);
    match tree {
        Expr::Int(note, digits) => Expr::Int(with_target(note, target), digits),
        Expr::Typed(note, kind, literal) => Expr::Typed(with_target(note, target), kind, literal),
        Expr::Time(note, text) => Expr::Time(with_target(note, target), text),
        Expr::True(note) => Expr::True(with_target(note, target)),
        Expr::False(note) => Expr::False(with_target(note, target)),
        Expr::Null(note) => Expr::Null(with_target(note, target)),
        Expr::Place(note, place) => Expr::Place(with_target(note, target), place),
        Expr::Call(note, place, arguments) => {
            Expr::Call(with_target(note, target), place, arguments)
        }
        Expr::Enumerator(note, type_name, inner, name) => {
            Expr::Enumerator(with_target(note, target), type_name, inner, name)
        }
        Expr::Ref(note, place) => Expr::Ref(with_target(note, target), place),
        Expr::Now(note) => Expr::Now(with_target(note, target)),
        Expr::Paren(note, inner) => Expr::Paren(with_target(note, target), inner),
        Expr::Not(note, inner) => Expr::Not(with_target(note, target), inner),
        Expr::Negate(note, inner) => Expr::Negate(with_target(note, target), inner),
        Expr::Chain(note, first, tails) => Expr::Chain(with_target(note, target), first, tails),
    }
}
