//! The events of a history. Of contents, versions and answers they keep what contracts see, which has no bytes.

use cycle_journal::{Answer, CycleReply};
use mem_image::Regions;
use plc_text::Refusal;
use std::snapshot::Snapshot;

#[derive(Drop)]
pub enum What<P> {
    Answered(Snapshot<Answer>),
    Begun(u32, Snapshot<P>, Snapshot<Regions>),
    Finished(Snapshot<CycleReply>),
    Wanted(Snapshot<P>),
    Quieted(Snapshot<Regions>),
    Changed(Snapshot<P>, Snapshot<Regions>),
    Resumed(Snapshot<Refusal>),
    Denied(Snapshot<Answer>),
    Reset(Snapshot<Answer>),
}

#[derive(Drop)]
pub struct Event<P> {
    pub who: u32,
    pub play: u32,
    pub what: What<P>,
}
