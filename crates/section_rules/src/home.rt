//! What sections belong to, and what may stand there.

ghost use Rattle.std.specs.Prelude.{◌≡◌};
ghost use Rattle.st_unit_rules.specs.VariableRules as rules;
ghost use Rattle.st_tree.specs.declared.declaration.SectionSort.TheVariants as sorts;
ghost use Rattle.section_rules.specs.Home.{home_of};

use st_tree::SectionSort;

/// What a section belongs to.
#[derive(Clone, Copy, Debug, PartialEq, Eq)]
pub enum Home {
    Class,
    /// A function block.
    Block,
    Program,
    /// A method or a function.
    Routine,
    /// A method of an interface.
    Prototype,
    /// VAR_GLOBAL, of the unit or of a configuration.
    Globals,
}

/// Whether sections of the sort may stand there.
pub fn may_have(home: Home, sort: SectionSort) -> bool
    ensures { result ≡ rules.may_have (home_of home) sort }
{
    match home {
        Home::Class => matches!(sort, SectionSort::Var | SectionSort::External),
        Home::Prototype => matches!(
            sort,
            SectionSort::Input | SectionSort::Output | SectionSort::InOut
        ),
        Home::Program => !matches!(sort, SectionSort::InOut),
        Home::Block => true,
        Home::Routine => true,
        Home::Globals => true,
    }
}

/// Whether access words may stand behind the word of such a section.
pub fn may_have_access(home: Home, sort: SectionSort) -> bool
    ensures { result ≡ rules.may_have_access (home_of home) sort }
{
    match home {
        Home::Class => matches!(sort, SectionSort::Var),
        Home::Block => matches!(sort, SectionSort::Var),
        Home::Program => false,
        Home::Routine => false,
        Home::Prototype => false,
        Home::Globals => false,
    }
}

/// Whether VAR may declare instances there.
fn var_holds_instances(home: Home) -> bool
    ensures { result ≡ rules.may_hold_instances (home_of home) sorts.Var }
{
    match home {
        Home::Class => true,
        Home::Block => true,
        Home::Program => true,
        Home::Routine => false,
        Home::Prototype => false,
        Home::Globals => false,
    }
}

/// Whether variables of such a section may be instances, or arrays that hold some.
pub fn may_hold_instances(home: Home, sort: SectionSort) -> bool
    ensures { result ≡ rules.may_hold_instances (home_of home) sort }
{
    match sort {
        SectionSort::InOut => true,
        SectionSort::External => true,
        SectionSort::Global => true,
        SectionSort::Var => var_holds_instances(home),
        SectionSort::Input => false,
        SectionSort::Output => false,
        SectionSort::Temp => false,
    }
}

/// Whether AT may stand at variables of such a section that are no constants.
pub fn may_have_address(home: Home, sort: SectionSort) -> bool
    ensures { result ≡ rules.may_have_address (home_of home) sort }
{
    match home {
        Home::Program => matches!(sort, SectionSort::Var),
        Home::Globals => matches!(sort, SectionSort::Global),
        Home::Class => false,
        Home::Block => false,
        Home::Routine => false,
        Home::Prototype => false,
    }
}
