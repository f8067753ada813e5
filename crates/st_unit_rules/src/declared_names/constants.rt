//! What names of constants mean.

ghost use Rattle.std.specs.Prelude.{◌≡◌};
ghost use Rattle.st_unit_rules.specs.declared_names.Constants as constants;

use st_tree::Target;

/// Whether a name means a constant whose value is told, or an enumerator.
pub fn is_told(target: Target) -> bool
    ensures { result ≡ constants.is_told target }
{
    match target {
        Target::Constant(_) => true,
        Target::Enumerator(_) => true,
        Target::Nothing => false,
        Target::Local(_) => false,
        Target::Variable(_) => false,
        Target::Field(_) => false,
        Target::Region(_) => false,
        Target::Function(_) => false,
        Target::Method(_) => false,
        Target::Conversion => false,
        Target::Parameter(_) => false,
    }
}
