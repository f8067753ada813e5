//! Sorts of sections.

ghost use Rattle.std.specs.Prelude.{◌≡◌};
ghost use Rattle.st_rules.specs.Scope as scope;
ghost use Rattle.st_rules.specs.Signatures as signatures;

use st_tree::SectionSort;

/// Whether the section is one of externals.
pub fn is_external(sort: SectionSort) -> bool
    ensures { result ≡ scope.is_external sort }
{
    matches!(sort, SectionSort::External)
}

/// Whether each instance has the variables of the section.
pub fn is_instance_sort(sort: SectionSort) -> bool
    ensures { result ≡ scope.is_instance_sort sort }
{
    matches!(
        sort,
        SectionSort::Var | SectionSort::Input | SectionSort::Output
    )
}

/// Whether only the body has the variables of the section.
pub fn is_body_sort(sort: SectionSort) -> bool
    ensures { result ≡ scope.is_body_sort sort }
{
    matches!(sort, SectionSort::InOut | SectionSort::Temp)
}

/// Whether the section is one of inputs, outputs or in-outs.
pub fn is_parameter_sort(sort: SectionSort) -> bool
    ensures { result ≡ signatures.is_parameter_sort sort }
{
    matches!(
        sort,
        SectionSort::Input | SectionSort::Output | SectionSort::InOut
    )
}
