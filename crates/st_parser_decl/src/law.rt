//! Texts have one reading at most, or one refusal.

ghost use Rattle.std.specs.Prelude.{◌≡◌, ℕ, List};
ghost use Rattle.plc_text.specs.declared.code.Code.{Code};
ghost use Rattle.st_tree.specs.declared.unit.Unit.{Unit as ProgramText};
ghost use Rattle.st_tree.specs.Grammar.{Lexeme};
ghost use Rattle.st_tree.specs.Declarations.{Derives};
ghost use Rattle.st_tree.specs.Reads.{Reads};
ghost use Rattle.st_tree.specs.NoUnit.{IsRefusedAt};
ghost use Rattle.st_parser_decl.specs.Law.{UnitNoneDeep, IsAnswered};

/// Lexemes spell at most one unit, and a text reads as at most one.
pub fn one_unit()
    ensures of_lexemes { (ts : List Lexeme) (unit unit' : ProgramText) → Derives ts unit → Derives ts unit' → unit ≡ unit' }
    ensures of_texts { (text : List ℕ) (unit unit' : ProgramText) → Reads text unit → Reads text unit' → unit ≡ unit' }
{}

/// Lexemes are a unit in which none is too deep, or are refused with one code at one place, and not both.
pub fn one_answer()
    ensures some { (ts : List Lexeme) → IsAnswered ts }
    ensures one_refusal { (ts : List Lexeme) (code code' : Code) (p q : ℕ) → IsRefusedAt code ts p → IsRefusedAt code' ts q → (code ≡ code') × (p ≡ q) }
    ensures never_both { (ts : List Lexeme) (unit : ProgramText) (code : Code) (p : ℕ) → UnitNoneDeep ts unit → IsRefusedAt code ts p → ⊥ }
{}
