//! Runs on one thread.

ghost use Rattle.std.specs.Prelude.{ℕ, List};
ghost use Rattle.plc_text.specs.declared.refusal.Refusal.{Refusal};
ghost use Rattle.st_values.specs.Program.{Program};
ghost use Rattle.st_change.specs.Laws.{Judges, OneAnswer};
ghost use Rattle.st_change.specs.StoreLaws.{Promises, PlaysKeep};
ghost use Rattle.st_change.specs.SameLaws.{RefusalsLeave};

/// What judges program texts.
pub trait Judge {
    /// A text is accepted, as this program.
    ghost accepts: { List ℕ → Program → Type 0 };

    /// A text is refused, with this refusal.
    ghost refuses: { List ℕ → Refusal → Type 0 };

    /// A text is accepted as one program, or refused by one refusal, and not both.
    ghost judges: { Judges accepts refuses };
}

/// A play has one answer and leaves one state, unless a change finds no memory.
pub fn one_answer<J: Judge>()
    ensures { (sources : List (List ℕ)) → OneAnswer J.accepts J.refuses sources }
{}

/// Where all that is accepted keeps what the checker promises, a play on a good store leaves a good one.
pub fn plays_keep<J: Judge>()
    ensures { Promises J.accepts → (sources : List (List ℕ)) → PlaysKeep J.accepts J.refuses sources }
{}

/// A change that is refused leaves version, program and store.
pub fn refusals_leave<J: Judge>()
    ensures { (sources : List (List ℕ)) → RefusalsLeave J.accepts J.refuses sources }
{}
