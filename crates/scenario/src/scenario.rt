//! What a scenario holds.

ghost use Rattle.std.specs.Prelude.{◌≡◌, IfOk};
ghost use Rattle.scenario.specs.Scenario.{contents_of};

use cycle_journal::Play;
use plc_text::{Items, NoMemory, Text};
use st_names::Names;
use std::alloc::Global;
use std::sync::Arc;

/// A first program, the sources that changes load in its place, and the plays. Threads share all but the program.
pub struct Scenario {
    /// The text of the first program: its lines, each followed by LF.
    pub program: Text,
    /// The texts of the sources by their names in upper case, in the order of the scenario.
    pub sources: Arc<Names<Text>>,
    /// The plays in their order. The first has number 1.
    pub plays: Arc<Items<Play>>,
    /// For each phase the number of its first play and the number behind its last. In an empty phase both are the number
    /// that the next play has or would have.
    pub phases: Arc<Items<(u32, u32)>>,
}

// By hand, so that a drop is one call: a derived one is written out wherever a `?` may need it, and a proof goes over each part.
impl Drop for Scenario {
    fn drop(self) {
        let Scenario {
            program,
            sources,
            plays,
            phases,
        } = self;
        drop(program);
        drop(sources);
        drop(plays);
        drop(phases);
    }
}

impl Scenario {
    /// What threads share of it.
    pub fn into_shared(self) -> (Arc<Items<Play>>, Arc<Names<Text>>, Arc<Items<(u32, u32)>>)
        ensures plays { result.0 ≡ self.plays }
        ensures sources { result.1 ≡ self.sources }
        ensures phases { result.2 ≡ self.phases }
    {
        let Scenario {
            program,
            sources,
            plays,
            phases,
        } = self;
        drop(program);
        (plays, sources, phases)
    }
}

/// A scenario of these parts.
pub(crate) fn shared(
    alloc: Global,
    program: Text,
    sources: Names<Text>,
    plays: Items<Play>,
    phases: Items<(u32, u32)>,
) -> Result<Scenario, NoMemory>
    ensures { IfOk result (λ scenario. contents_of scenario ≡ record { program = program; sources = sources; plays = plays; phases = phases }) }
{
    let sources = Arc::new(alloc, sources)?;
    let plays = Arc::new(alloc, plays)?;
    let phases = Arc::new(alloc, phases)?;
    Ok(Scenario {
        program,
        sources,
        plays,
        phases,
    })
}
