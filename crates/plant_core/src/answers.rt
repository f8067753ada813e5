//! What the calls of a core answer.

use plc_text::Denied;

/// Where a play stands: it has an entry or an open claim, a play before it has no entry, or it comes next.
#[derive(Drop)]
pub enum Timing {
    Twice,
    Early(u32),
    Next,
}

/// Whether the loaded version can run a cycle of the play: its task, or the entry that is made in its place.
#[derive(Drop)]
pub enum Able {
    Gone(u32),
    Held,
    Task(u32),
}

/// What `begin` answers. `Claim` and `Answered` added an event, the others changed nothing.
#[derive(Drop)]
pub enum Begun<C> {
    /// The play has an entry or an open claim.
    Twice,
    /// A play that comes before it has no entry: the least such.
    Early { play: u32 },
    /// A change is wanted or under way: its play.
    Paused { change: u32 },
    /// The task is not there or held, and the play has its entry now.
    Answered,
    /// A region of the task is claimed: the least such, with the least task that has it.
    Busy { region: u32, holder: u32 },
    Claim(C),
}

/// A change that is wanted.
#[derive(Drop)]
pub struct Wish {
    pub play: u32,
}

/// What `want` answers. `Wish` added an event, the others changed nothing.
#[derive(Drop)]
pub enum Wanted {
    Twice,
    Early { play: u32 },
    Paused { change: u32 },
    Wish(Wish),
}

/// Why a change did not begin, and what was handed in.
#[derive(Drop)]
pub enum Later<C> {
    /// It was prepared for another version than the loaded one.
    Older {
        prepared_for: u32,
        loaded: u32,
        wish: Wish,
        change: C,
    },
    /// A cycle is open: the least task that has one.
    Busy {
        holder: u32,
        wish: Wish,
        change: C,
    },
}

/// The denial was against another version than the loaded one.
#[derive(Drop)]
pub struct OlderWish {
    pub loaded: u32,
    pub wish: Wish,
    pub why: Denied,
}

/// What `reset` answers. `Made` added an event, the others changed nothing.
#[derive(Drop)]
pub enum ResetDone {
    Twice,
    Early { play: u32 },
    Made,
}
