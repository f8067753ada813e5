//! How a cycle ended.

use cycle_journal::CycleReply;
use plc_text::Series;
use value_trees::Member;

/// How a cycle ended: its reply, and the store that it leaves.
#[derive(Drop)]
pub struct Ended {
    pub reply: CycleReply,
    pub store: Series<Member>,
}
