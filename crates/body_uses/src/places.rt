//! What places name and follow.

ghost use Rattle.std.specs.Prelude.{◌≡◌, ◌∷◌, [], ◌++◌, OnOk, if◌then◌else◌};
ghost use Rattle.st_tree.specs.Expression.{selector_of, expression_of};
ghost use Rattle.st_values.specs.Initial as initial_words;
ghost use Rattle.st_meaning.specs.Place as place_words;
ghost use Rattle.st_meaning.specs.Expression as expression_words;
ghost use Rattle.st_values.specs.Program.{Program};
ghost use Rattle.st_meaning.specs.st_frame.Use as words;
ghost use Rattle.body_uses.specs.Uses.{uses_of};

use crate::uses::Use;
use plc_text::NoMemory;
use st_tree::{Expr, Note, Root, Selector, Target};
use st_types::StType;

/// The note of a root's name.
pub fn root_note(root: &Root<Note>) -> &Note
    ensures { result.now ≡ place_words.root_note root.now }
{
    match root {
        Root::Name(note, _) => note,
        Root::This(note) => note,
        Root::Super(note) => note,
    }
}

/// The note of a selector: the type of what stands there.
#[tactic(auto, using(st_tree::specs::Expression::expression_views))]
pub fn selector_note(selector: &Selector<Note>) -> &Note
    ensures { result.now ≡ expression_words.selector_note (selector_of selector.now) }
{
    match selector {
        Selector::Field(note, _) => note,
        Selector::Index(note, _) => note,
        Selector::Target(note) => note,
    }
}

/// The note at the head of an expression.
#[tactic(auto, using(st_tree::specs::Expression::expression_views))]
pub fn expression_note(e: &Expr<Note>) -> &Note
    ensures { result.now ≡ initial_words.note_of (expression_of e.now) }
{
    match e {
        Expr::Int(note, _) => note,
        Expr::Typed(note, _, _) => note,
        Expr::Time(note, _) => note,
        Expr::True(note) => note,
        Expr::False(note) => note,
        Expr::Null(note) => note,
        Expr::Place(note, _) => note,
        Expr::Call(note, _, _) => note,
        Expr::Enumerator(note, _, _, _) => note,
        Expr::Ref(note, _) => note,
        Expr::Now(note) => note,
        Expr::Paren(note, _) => note,
        Expr::Not(note, _) => note,
        Expr::Negate(note, _) => note,
        Expr::Chain(note, _, _) => note,
    }
}

fn is_instance(kind: &StType) -> bool
    ensures { result ≡ words.is_instance kind.now }
{
    matches!(kind, StType::Instance(_))
}

fn is_interface(kind: &StType) -> bool
    ensures { result ≡ words.is_interface kind.now }
{
    matches!(kind, StType::Interface(_))
}

fn is_method(target: Target) -> bool
    ensures { result ≡ words.is_method target }
{
    matches!(target, Target::Method(_))
}

/// Whether a selector on a place of this type goes on by the reference or interface value that stands there.
#[tactic(auto, using(st_tree::specs::Expression::expression_views))]
pub fn is_followed(kind: &StType, selector: &Selector<Note>) -> bool
    ensures { result ≡ words.is_followed kind.now (selector_of selector.now) }
{
    match selector {
        Selector::Field(note, _) => is_method(note.target) && is_interface(kind),
        Selector::Index(_, _) => false,
        Selector::Target(_) => !is_instance(kind),
    }
}

/// Adds the region that a name means, where it means one.
pub fn add_name(uses: &mut Vec<Use<'_>>, target: Target) -> Result<(), NoMemory>
    ensures { OnOk result (uses_of uses.new.items ≡ uses_of uses.old.items ++ words.name_uses target) }
{
    if let Target::Region(region) = target {
        uses.push(Use::Names(region))?;
    }
    Ok(())
}

/// Adds what a root names.
pub fn add_root(uses: &mut Vec<Use<'_>>, root: &Root<Note>) -> Result<(), NoMemory>
    ensures { OnOk result (uses_of uses.new.items ≡ uses_of uses.old.items ++ words.root_uses root.now) }
{
    if let Root::Name(note, _) = root {
        add_name(uses, note.target)?;
    }
    Ok(())
}

/// Adds that a selector follows a value of this type, where it does.
pub fn add_followed<'p>(
    uses: &mut Vec<Use<'p>>,
    kind: &'p StType,
    selector: &Selector<Note>,
) -> Result<(), NoMemory>
    ensures { OnOk result (uses_of uses.new.items ≡ uses_of uses.old.items ++ (if words.is_followed kind.now (selector_of selector.now) then words.follows kind.now ∷ [] else [])) }
{
    if is_followed(kind, selector) {
        uses.push(Use::Follows(kind))?;
    }
    Ok(())
}

/// Adds that a value of this type is tried, where it is a reference or an interface.
pub fn add_tried<'p>(uses: &mut Vec<Use<'p>>, kind: &'p StType) -> Result<(), NoMemory>
    ensures { OnOk result ((p : Program) → uses_of uses.new.items ≡ uses_of uses.old.items ++ words.tried p kind.now) }
{
    match kind {
        StType::Reference(_) => uses.push(Use::Follows(kind))?,
        StType::Interface(_) => uses.push(Use::Follows(kind))?,
        _ => {}
    }
    Ok(())
}
