//! Laws of histories.

ghost use Rattle.plant_rules.specs.plant_history.Running.{HistoryLaws};

use crate::Controlled;

/// The journal of a legal history is a run of One whose entries keep the order of phases and lists. Open claims are apart; what is open, wanted or
/// done stays so while others go on; and the version's number counts the changes.
pub fn history_laws<P: Controlled>()
    ensures { HistoryLaws P.meaning }
{}
