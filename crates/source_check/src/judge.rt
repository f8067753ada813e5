//! What judges program texts by the rules of the language.

use crate::source::check_source;
use console_command::Checker;
use plc_text::{Denied, Text};
use st_change::Judge;
use st_tree::Program;
use std::alloc::Global;

/// Structured Text (IEC 61131-3:2013, clauses 6 and 7): a text is accepted as its checked program, or has one refusal, as
/// `check_source` says.
pub struct Language;

impl Judge for Language {
    ghost use Rattle.st_prelude.specs.Blocks.{standard_blocks};
    ghost use Rattle.accepted_texts.specs.st_accepted.Judge.{Accepts, Refuses};
    ghost use Rattle.source_check.specs.JudgeLaws.{judges as judges_law};

    ghost accepts = { Accepts };

    ghost refuses = { Refuses };

    ghost judges = { judges_law standard_blocks };
}

impl Checker for Language {
    ghost use Rattle.st_prelude.specs.Blocks.{standard_blocks};
    ghost use Rattle.accepted_texts.specs.st_accepted.Judge.{Holds};
    ghost use Rattle.source_check.specs.JudgeLaws.{one_checked, seen as seen_law, kept as kept_law};

    ghost holds = { Holds };

    fn check(alloc: Global, text: &Text) -> Result<Program, Denied> {
        check_source(alloc, text.as_str())
    }

    ghost one = { one_checked standard_blocks };

    ghost seen = { seen_law standard_blocks };

    ghost kept = { kept_law };
}
