//! What a name means behind what stands before `.`.

ghost use Rattle.std.specs.Prelude.{◌≡◌, option_map};
ghost use Rattle.st_types.specs.declared.st_type.StType.TheVariants as type;
ghost use Rattle.st_rules.specs.Scope as scope;
ghost use Rattle.st_rules.specs.Places as places;
ghost use Rattle.check_places.specs.Standing.{standing, parted};

use crate::standing::{Part, Standing};
use name_resolution::Scope;
use plc_text::Text;
use st_types::StType;

fn method_part<'a>(s: &Scope<'a>, class: u32, called: bool, name: &Text) -> Option<Part<'a>>
    ensures { parted result ≡ places.method_part s.now class called name.now }
{
    if called {
        match s.method_of(class, name) {
            Some(id) => Some(Part::Method(id)),
            None => None,
        }
    } else {
        None
    }
}

fn instance_part<'a>(s: &Scope<'a>, class: u32, called: bool, name: &Text) -> Option<Part<'a>>
    ensures { parted result ≡ places.instance_part s.now class called name.now }
{
    match s.instance_variable(class, name) {
        Some((d, v)) => Some(Part::Member(d, v)),
        None => method_part(s, class, called, name),
    }
}

fn field_part<'a>(s: &Scope<'a>, structure: u32, name: &Text) -> Option<Part<'a>>
    ensures { parted result ≡ places.field_part (scope.field_named s.now structure name.now) }
{
    match s.field_named(structure, name) {
        Some((k, field)) => Some(Part::Field(k, field)),
        None => None,
    }
}

fn prototype_part<'a>(s: &Scope<'a>, interface: u32, called: bool, name: &Text) -> Option<Part<'a>>
    ensures { parted result ≡ places.value_part s.now (type.Interface interface) called name.now }
{
    if called {
        match s.prototype_of(interface, name) {
            Some(id) => Some(Part::Prototype(id)),
            None => None,
        }
    } else {
        None
    }
}

fn value_part<'a>(s: &Scope<'a>, t: &StType, called: bool, name: &Text) -> Option<Part<'a>>
    ensures { parted result ≡ places.value_part s.now t.now called name.now }
{
    match t {
        StType::Structure(n) => field_part(s, *n, name),
        StType::Instance(c) => instance_part(s, *c, called, name),
        StType::Interface(i) => prototype_part(s, *i, called, name),
        _ => None,
    }
}

/// What a name behind `.` means, where a call stands behind it or not.
#[tactic(auto, unfolding(st_rules::specs::Places::part_of))]
pub fn part_of<'a>(s: &Scope<'a>, b: Standing<'a>, called: bool, name: &Text) -> Option<Part<'a>>
    ensures { parted result ≡ places.part_of s.now (standing b.entry) called name.now }
{
    match b {
        Standing::Value(t) => value_part(s, t, called, name),
        Standing::Instance(c) => instance_part(s, c, called, name),
        Standing::Own(c) => instance_part(s, c, called, name),
        Standing::Enumeration(n) => value_of(s, n, name),
        Standing::Enumerator(_) => None,
        Standing::NoBase => None,
        Standing::Untold => None,
    }
}

fn value_of<'a>(s: &Scope<'a>, enumeration: u32, name: &Text) -> Option<Part<'a>>
    ensures { parted result ≡ option_map (places.a_value_of enumeration) (scope.value_of s.now enumeration name.now) }
{
    match s.value_of(enumeration, name) {
        Some(k) => Some(Part::Value(enumeration, k)),
        None => None,
    }
}
