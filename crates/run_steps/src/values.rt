//! Numbers and truth in values.

ghost use Rattle.std.specs.Prelude.{◌≡◌, option_map};
ghost use Rattle.st_meaning.specs.Operation as words;
ghost use Rattle.value_trees.specs.Value.{value_of};

use st_tree::{Path, Step};
use st_types::{Elem, StType};
use value_trees::Value;

/// The number of a value; 0 of any other.
#[tactic(auto, using(value_trees::specs::Value::value_views))]
pub fn number_in(v: &Value) -> i128
    ensures { result ≡ words.number_in (value_of v.now) }
{
    match v {
        Value::Number(z) => *z,
        Value::Reference(_) => 0,
        Value::Array(_, _) => 0,
        Value::Structure(_, _) => 0,
        Value::Instance(_, _) => 0,
    }
}

/// The path that a reference or an interface variable holds.
#[tactic(auto, using(value_trees::specs::Value::value_views))]
pub fn path_in(v: &Value) -> Option<&Path>
    ensures { option_map (λ q. q.now) result ≡ words.path_in (value_of v.now) }
{
    match v {
        Value::Reference(target) => target.as_ref(),
        Value::Number(_) => None,
        Value::Array(_, _) => None,
        Value::Structure(_, _) => None,
        Value::Instance(_, _) => None,
    }
}

/// Whether a value counts as TRUE.
#[tactic(auto, using(value_trees::specs::Value::value_views))]
pub fn is_true(v: &Value) -> bool
    ensures { result ≡ words.is_true (value_of v.now) }
{
    match v {
        Value::Number(z) => *z != 0,
        Value::Reference(_) => true,
        Value::Array(_, _) => true,
        Value::Structure(_, _) => true,
        Value::Instance(_, _) => true,
    }
}

/// TRUE or FALSE.
#[tactic(auto, using(value_trees::specs::Value::value_views))]
pub fn truth(holds: bool) -> Value
    ensures { value_of result ≡ words.truth holds }
{
    Value::Number(i128::from(holds))
}

/// The elementary type in which a number is taken.
pub fn elem_of(kind: &StType) -> Elem
    ensures { result ≡ words.elem_of kind.now }
{
    match kind {
        StType::Elementary(e) => *e,
        _ => Elem::Dint,
    }
}

fn same_step(a: &Step, b: &Step) -> bool
    ensures { result ≡ words.same_step a.now b.now }
{
    match a {
        Step::Field(i) => match b {
            Step::Field(j) => *i == *j,
            Step::Element(_) => false,
        },
        Step::Element(i) => match b {
            Step::Element(j) => *i == *j,
            Step::Field(_) => false,
        },
    }
}

fn same_steps(a: &[Step], b: &[Step]) -> bool
    ensures { result ≡ words.same_steps a.now b.now }
{
    match a {
        [] => b.is_empty(),
        [first, rest @ ..] => match b {
            [] => false,
            [other, others @ ..] => {
                if same_step(first, other) {
                    same_steps(rest, others)
                } else {
                    false
                }
            }
        },
    }
}

/// Whether both name one instance, or both are NULL.
fn same_path(a: Option<&Path>, b: Option<&Path>) -> bool
    ensures { result ≡ words.same_path (option_map (λ q. q.now) a.entry) (option_map (λ q. q.now) b.entry) }
{
    match a {
        None => b.is_none(),
        Some(a) => match b {
            None => false,
            Some(b) => {
                if a.region == b.region {
                    same_steps(a.steps.as_slice(), b.steps.as_slice())
                } else {
                    false
                }
            }
        },
    }
}

/// Whether two values are equal, as the operators = and <> compare them.
#[tactic(auto, using(value_trees::specs::Value::value_views))]
pub fn same_value(x: &Value, y: &Value) -> bool
    ensures { result ≡ words.same_value (value_of x.now) (value_of y.now) }
{
    match x {
        Value::Number(a) => match y {
            Value::Number(b) => *a == *b,
            Value::Reference(_) => false,
            Value::Array(_, _) => false,
            Value::Structure(_, _) => false,
            Value::Instance(_, _) => false,
        },
        Value::Reference(a) => match y {
            Value::Reference(b) => same_path(a.as_ref(), b.as_ref()),
            Value::Number(_) => false,
            Value::Array(_, _) => false,
            Value::Structure(_, _) => false,
            Value::Instance(_, _) => false,
        },
        Value::Array(_, _) => false,
        Value::Structure(_, _) => false,
        Value::Instance(_, _) => false,
    }
}
