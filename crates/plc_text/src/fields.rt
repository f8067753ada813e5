//! The fields of a line, between which single spaces stand.

ghost use Rattle.std.specs.Prelude.{◌≡◌};
ghost use Rattle.plc_text.specs.Fields.{first_field, behind_field};

/// The first field of a line, and what stands behind the space that ends it. Where no space is, the field is the whole
/// line, and nothing stands behind it.
pub fn split_field(line: &str) -> (&str, &str)
    ensures first { result.0.now ≡ first_field line.now }
    ensures rest { result.1.now ≡ behind_field line.now }
{
    match line.split_once(' ') {
        Some(parts) => parts,
        None => (line, ""),
    }
}
