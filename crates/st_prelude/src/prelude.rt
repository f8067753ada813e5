//! The prelude before a unit.

ghost use Rattle.std.specs.Prelude.{◌≡◌, map, IfOk};
ghost use Rattle.st_lexer.specs.Token.{token_view};
ghost use Rattle.st_prelude.specs.Blocks.{standard_blocks};
ghost use Rattle.st_prelude.specs.Prelude.{without_line, IsPrelude, HasPrelude};

use crate::text::PRELUDE;
use plc_text::NoMemory;
use st_lexer::{Token, lexemes, tokens};
use st_parser_decl::unit_of;
use st_tree::Unit;
use std::alloc::{AllocError, Global};

/// The tokens with 0 for each line.
fn without_lines<'a>(alloc: Global, tokens: &[Token<'a>]) -> Result<Vec<Token<'a>>, AllocError>
    ensures { IfOk result (λ found. map token_view found.items ≡ map without_line (map token_view tokens.now)) }
{
    let mut found = Vec::with_capacity(alloc, tokens.len())?;
    for token in tokens {
        let mut one = *token;
        one.line = 0;
        found.push(one)?;
    }
    Ok(found)
}

/// The unit that a text is, with 0 for each line.
fn prelude_of(alloc: Global, text: &str) -> Result<Unit, NoMemory>
    ensures { IfOk result (λ unit. IsPrelude text.now unit) }
{
    let Ok(found) = tokens(alloc, text) else {
        return Err(NoMemory);
    };
    let plain = without_lines(alloc, &found)?;
    let spelled = lexemes(alloc, &plain)?;
    match unit_of(alloc, &spelled) {
        Ok(unit) => Ok(unit),
        Err(_) => Err(NoMemory),
    }
}

/// The unit that the standard blocks are.
fn prelude(alloc: Global) -> Result<Unit, NoMemory>
    ensures { IfOk result (λ unit. IsPrelude standard_blocks unit) }
{
    prelude_of(alloc, PRELUDE)
}

/// The unit with the standard blocks before its own declarations. Their lines are 0.
pub fn with_prelude(alloc: Global, unit: Unit) -> Result<Unit, NoMemory>
    ensures { IfOk result (HasPrelude standard_blocks unit) }
{
    let Unit { mut decls } = prelude(alloc)?;
    let Unit { decls: own } = unit;
    decls.append(own)?;
    Ok(Unit { decls })
}

/// Gives the memory of a unit back. The drops of its trees are proved with this function, so a crate above that ends a unit by it, and holds
/// none at a `?`, has none of them to prove.
pub fn give_back(unit: Unit) {
    drop(unit);
}
