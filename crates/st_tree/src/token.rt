//! The kinds of tokens.

ghost use Rattle.std.specs.Prelude.{◌≡◌, ℕ, List};
ghost use Rattle.st_tree.specs.Token.{Token, Tokens, BadAfter};

/// What a token is.
#[derive(Clone, Copy, Debug, PartialEq, Eq)]
pub enum TokenKind {
    /// A word that is no keyword.
    Word,
    /// A word that the language keeps for itself, in upper or lower case.
    Keyword,
    /// A number, in decimal or behind `2#`, `8#` or `16#`.
    Int,
    /// A duration behind `T#` or `TIME#`.
    Time,
    /// A direct address, as `%IX0.1`.
    Address,
    Symbol,
    /// A pragma that counts.
    Mark,
}

/// A text has one list of tokens at most, or one first bad place with the tokens before it, and not both.
pub fn token_laws()
    ensures one_tokens { (text : List ℕ) (ts us : List Token) → Tokens text ts → Tokens text us → ts ≡ us }
    ensures one_bad { (text : List ℕ) (p q : ℕ) (ts us : List Token) → BadAfter text ts p → BadAfter text us q → (p ≡ q) × (ts ≡ us) }
    ensures never_both { (text : List ℕ) (ts us : List Token) (p : ℕ) → Tokens text ts → BadAfter text us p → ⊥ }
{}
