//! How many arrays lie in one another.

ghost use Rattle.std.specs.Prelude.{◌≡◌, nat_lt};
ghost use Rattle.st_unit_rules.specs.declared_names.WrittenTypes.{array_depth};

use st_types::StType;

/// Whether a type has fewer dimensions than so many.
pub fn has_fewer_dimensions(kind: &StType, most: u32) -> bool
    ensures { result ≡ nat_lt (array_depth kind.now) most }
{
    match kind {
        StType::Array(_, _, of) => most > 1 && has_fewer_dimensions(of.get(), most - 1),
        StType::Elementary(_) => most > 0,
        StType::Enumeration(_) => most > 0,
        StType::Structure(_) => most > 0,
        StType::Instance(_) => most > 0,
        StType::Reference(_) => most > 0,
        StType::Interface(_) => most > 0,
    }
}
