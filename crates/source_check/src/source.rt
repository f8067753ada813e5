//! A whole source.

ghost use Rattle.std.specs.Prelude.{◌≤◌, length, map, IfErr, IfOk};
ghost use Rattle.st_tree.specs.Token.{Tokens};
ghost use Rattle.st_lexer.specs.Token.{token_view};
ghost use Rattle.st_prelude.specs.Blocks.{standard_blocks};
ghost use Rattle.accepted_texts.specs.st_accepted.Accepted.{Accepted, IsUnit, most_bytes};
ghost use Rattle.st_check_decl.specs.unit_check.Checking.{OnRefused};
ghost use Rattle.accepted_texts.specs.st_accepted.Judge.{IsRefusal};

use plc_text::Denied;
use st_check_decl::check;
use st_lexer::{Token, tokens};
use st_parser_decl::parse;
use st_prelude::{give_back, with_prelude};
use st_tree::{Program, Unit};
use std::alloc::Global;

/// The unit that the tokens of a source are, behind the declarations of the prelude.
fn whole_of(alloc: Global, text: &str, found: &[Token<'_>]) -> Result<Unit, Denied>
    requires fits { length text.now ≤ most_bytes }
    requires tokens { Tokens text.now (map token_view found.now) }
    ensures ok { IfOk result (IsUnit standard_blocks text.now) }
    ensures err { IfErr result (λ e. OnRefused e (IsRefusal standard_blocks text.now)) }
{
    let own = parse(alloc, text, found)?;
    let whole = with_prelude(alloc, own)?;
    Ok(whole)
}

/// The unit that a source is, behind the declarations of the prelude.
fn whole_unit(alloc: Global, text: &str) -> Result<Unit, Denied>
    ensures ok { IfOk result (IsUnit standard_blocks text.now) }
    ensures err { IfErr result (λ e. OnRefused e (IsRefusal standard_blocks text.now)) }
{
    let found = tokens(alloc, text)?;
    let whole = whole_of(alloc, text, &found)?;
    Ok(whole)
}

/// The checked program of a source (IEC 61131-3:2013, clauses 6 and 7), from its bytes on. The blocks of the prelude stand before its own
/// declarations. What breaks a rule is refused with a code, a declaration and a line:
///
/// - `Code::E16`, `-` and line 1, where the source has more bytes than `st_lexer::MAX_SOURCE`;
/// - `Code::E01` at its first bad place;
/// - `Code::E02` or `Code::E03` at its first token with which no unit goes on, or which stands too deep;
/// - else the least code of its first bad declaration, at its least line, or `Code::E15` where it has no configuration.
///
/// A source is accepted as one program or has one such refusal, and not both. It takes time linear in the source but for what `check` says.
pub fn check_source(alloc: Global, text: &str) -> Result<Program, Denied>
    ensures accepted { IfOk result (Accepted standard_blocks text.now) }
    ensures refused { IfErr result (λ e. OnRefused e (IsRefusal standard_blocks text.now)) }
{
    let whole = whole_unit(alloc, text)?;
    let judged = check(alloc, &whole);
    give_back(whole);
    judged
}
