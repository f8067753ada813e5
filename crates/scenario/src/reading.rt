//! The scenario that bytes are.

ghost use Rattle.std.specs.Prelude.{◌≡◌, ℕ, ◌<◌, List, length, IfOk, IfErr};
ghost use Rattle.plc_text.specs.Lines.{FirstBad};
ghost use Rattle.scenario.specs.Scenario.{Contents, contents_of};
ghost use Rattle.scenario.specs.Reading.{scenario_lines, IsScenario, CanBegin, NoScenario, OnBad};

use crate::lines::ScenarioLines;
use crate::reader::Reader;
use crate::scenario::Scenario;
use crate::scenario_error::ScenarioError;
use std::alloc::Global;
use std::str;

/// The scenario that the bytes are. They are so few that their lines can be counted.
pub fn read_scenario(alloc: Global, bytes: &[u8]) -> Result<Scenario, ScenarioError>
    requires { length bytes.now < 4294967295 }
    ensures ok { IfOk result (λ scenario. IsScenario (scenario_lines bytes.now) (contents_of scenario)) }
    // The bytes are no scenario, and the line is the first that no scenario has behind the lines before it.
    ensures bad { IfErr result (λ e. OnBad e (λ line. NoScenario (scenario_lines bytes.now) × FirstBad CanBegin (scenario_lines bytes.now) line)) }
{
    let mut lines = ScenarioLines::new(bytes);
    let mut reader = Reader::new(alloc);
    let mut number = 0;
    while let Some(line) = lines.next_line() {
        number += 1;
        let Ok(line) = str::from_utf8(line) else {
            return Err(ScenarioError::Bad(number));
        };
        if !reader.take(alloc, line)? {
            return Err(ScenarioError::Bad(number));
        }
    }
    match reader.finish(alloc)? {
        Some(scenario) => Ok(scenario),
        None => Err(ScenarioError::Bad(number + 1)),
    }
}

/// Bytes are at most one scenario: their lines determine what it holds.
pub fn one_scenario()
    ensures { (bytes : List ℕ) (held other : Contents) → IsScenario (scenario_lines bytes) held → IsScenario (scenario_lines bytes) other → held ≡ other }
{}
