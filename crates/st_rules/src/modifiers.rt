//! The words before a class or a method (IEC 61131-3:2013, 6.6.5).

ghost use Rattle.std.specs.Prelude.{◌≡◌};
ghost use Rattle.std.specs.List.{list_any};
ghost use Rattle.st_rules.specs.Modifiers as words;

use st_tree::Modifier;

/// From where a method or a variable of a class may be used. INTERNAL counts as PUBLIC.
#[derive(Clone, Copy, Debug, PartialEq, Eq)]
pub enum Access {
    Public,
    /// In the class and in those derived from it.
    Protected,
    /// In the class alone.
    Private,
}

fn access_word(modifier: Modifier) -> Option<Access>
    ensures { result ≡ words.access_word modifier }
{
    match modifier {
        Modifier::Public | Modifier::Internal => Some(Access::Public),
        Modifier::Protected => Some(Access::Protected),
        Modifier::Private => Some(Access::Private),
        _ => None,
    }
}

/// The access that the words give, by the first of them that gives one.
pub fn written_access(modifiers: &[Modifier]) -> Option<Access>
    ensures { result ≡ words.written_access modifiers.now }
{
    for modifier in modifiers {
        if let Some(access) = access_word(*modifier) {
            return Some(access);
        }
    }
    None
}

/// The access of a method: PUBLIC where nothing is written.
pub fn method_access(modifiers: &[Modifier]) -> Access
    ensures { result ≡ words.method_access modifiers.now }
{
    written_access(modifiers).unwrap_or(Access::Public)
}

/// Whether ABSTRACT is among the words.
pub fn is_abstract(modifiers: &[Modifier]) -> bool
    ensures { result ≡ words.is_abstract modifiers.now }
{
    modifiers.iter().any(|m| matches!(m, Modifier::Abstract))
}

/// Whether FINAL is among the words.
pub fn is_final(modifiers: &[Modifier]) -> bool
    ensures { result ≡ words.is_final modifiers.now }
{
    modifiers.iter().any(|m| matches!(m, Modifier::Final))
}

/// Whether OVERRIDE is among the words.
pub fn is_override(modifiers: &[Modifier]) -> bool
    ensures { result ≡ words.is_override modifiers.now }
{
    modifiers.iter().any(|m| matches!(m, Modifier::Override))
}

/// Whether CONSTANT is among the words.
pub fn is_constant(modifiers: &[Modifier]) -> bool
    ensures { result ≡ words.is_constant modifiers.now }
{
    modifiers.iter().any(|m| matches!(m, Modifier::Constant))
}
