//! Lexemes spell one list of statements and one initial value at most.

ghost use Rattle.std.specs.Prelude.{◌≡◌, ℕ, List, []};
ghost use Rattle.st_tree.specs.Initial.{Initial};
ghost use Rattle.st_tree.specs.Statement.{Statements};
ghost use Rattle.st_tree.specs.Grammar.{Lexeme, body, initial};

/// Lexemes spell at most one list of statements, and at most one initial value.
pub fn one_reading()
    ensures of_statements { (ts : List Lexeme) (ss ss' : Statements ℕ) → body ss ts [] → body ss' ts [] → ss ≡ ss' }
    ensures of_values { (ts : List Lexeme) (i i' : Initial ℕ) → initial i ts [] → initial i' ts [] → i ≡ i' }
{}
