//! Sizes of types.

ghost use Rattle.std.specs.Prelude.{◌≡◌, ◌-ℤ◌};
ghost use Rattle.st_unit_rules.specs.Worth.{count_to};
ghost use Rattle.check_limits.specs.type_sizes.Size as sizes;
ghost use Rattle.check_limits.specs.type_sizes.Size.{capped};

/// How many values something has, and how many steps of containment lead into it, one of them to itself where it has parts. What is too
/// large for a number is the greatest one.
#[derive(Clone, Copy, Debug, PartialEq, Eq)]
pub struct Size {
    pub values: u32,
    pub steps: u32,
}

pub fn nothing() -> Size
    ensures { result ≡ sizes.nothing }
{
    Size {
        values: 0,
        steps: 0,
    }
}

/// Of what has no parts.
pub fn simple() -> Size
    ensures { result ≡ sizes.simple }
{
    Size {
        values: 1,
        steps: 0,
    }
}

/// Both, one beside the other.
pub fn both(a: Size, b: Size) -> Size
    ensures { result ≡ sizes.both a b }
{
    Size {
        values: a.values.saturating_add(b.values),
        steps: a.steps.max(b.steps),
    }
}

/// A structure of such fields: one value, where it has none.
pub fn structure(fields: Size) -> Size
    ensures { result ≡ sizes.structure fields }
{
    Size {
        values: fields.values.max(1),
        steps: fields.steps.saturating_add(1),
    }
}

/// An instance with such variables.
pub fn instance(variables: Size) -> Size
    ensures { result ≡ sizes.instance variables }
{
    Size {
        values: variables.values.saturating_add(1),
        steps: variables.steps.saturating_add(1),
    }
}

/// How many indices there are from one to another.
fn count(low: &i128, high: &i128) -> u32
    ensures { result ≡ capped (count_to (high.now -ℤ low.now)) }
{
    let low = *low;
    let high = *high;
    if high < low {
        return 0;
    }
    match high.checked_sub(low) {
        Some(more) if more < 0xffff_ffff => more as u32 + 1,
        _ => 0xffff_ffff,
    }
}

/// An array of such elements.
pub fn array(low: &i128, high: &i128, element: Size) -> Size
    ensures { result ≡ sizes.array low.now high.now element }
{
    Size {
        values: count(low, high).saturating_mul(element.values),
        steps: element.steps.saturating_add(1),
    }
}
