//! How statements go on.

ghost use Rattle.std.specs.Prelude.{◌≡◌, is_some, option_map};
ghost use Rattle.reference_bodies.specs.Flow.{flow_of};
ghost use Rattle.reference_bodies.specs.Private.Turns as turns;

/// How statements go on: with the next one, or out of the loop, with its next turn, or out of the routine.
#[derive(Clone, Copy)]
pub enum Flow {
    GoesOn,
    Exits,
    Continues,
    Returns,
}

/// How a loop ends after a turn, if it does.
pub fn end_of(flow: Flow) -> Option<Flow>
    ensures { option_map flow_of result ≡ turns.end_of (flow_of flow) }
{
    match flow {
        Flow::GoesOn => None,
        Flow::Continues => None,
        Flow::Exits => Some(Flow::GoesOn),
        Flow::Returns => Some(Flow::Returns),
    }
}

/// Whether the next statement comes.
pub fn goes_on(flow: Flow) -> bool
    ensures { result ≡ turns.is_on (flow_of flow) }
{
    match flow {
        Flow::GoesOn => true,
        Flow::Exits => false,
        Flow::Continues => false,
        Flow::Returns => false,
    }
}

/// Whether a loop or a list of branches is at its end.
pub fn is_end(end: Option<Flow>) -> bool
    ensures { result ≡ is_some (option_map flow_of end) }
{
    match end {
        Some(_) => true,
        None => false,
    }
}

/// How it ended.
pub fn ended(end: Option<Flow>) -> Flow
    ensures { flow_of result ≡ turns.ended (option_map flow_of end) }
{
    match end {
        Some(flow) => flow,
        None => Flow::GoesOn,
    }
}
