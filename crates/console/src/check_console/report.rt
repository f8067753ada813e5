//! What `check` says on bytes.

ghost use Rattle.std.specs.Prelude.{◌≡◌, ◌≤◌, ℕ, List, length, IfOk};
ghost use Rattle.scenario.specs.Scenario.{contents_of};
ghost use Rattle.st_values.specs.View.{program_of};
ghost use Rattle.console_command.specs.Outcome.{byte_limit};
ghost use Rattle.console.specs.check_console.Report.{CheckReports, OnScenario};
ghost use Rattle.console.specs.check_console.Private.Lines.{LoadsFirst, SaysSources};

use crate::check_console::sources::push_sources;
use console_command::{Checker, Report, Verdict, refused_report, script_report};
use plc_text::{Denied, NoMemory, Refusal, Text};
use reference_journal::{give_back, load_first};
use scenario::{Scenario, ScenarioError, read_scenario};
use st_names::Names;
use std::alloc::Global;

/// The refusal of a first program, by its text or by a hook of its first load; none where it is accepted and loaded.
fn first_refusal<J: Checker>(alloc: Global, text: &Text) -> Result<Option<Refusal>, NoMemory>
    ensures { IfOk result (λ refusal. LoadsFirst J.accepts J.refuses text.now refusal) }
{
    match J::check(alloc, text) {
        Ok(program) => {
            let loaded = load_first(alloc, &program);
            give_back(program);
            loaded
        }
        Err(Denied::Refused(refusal)) => Ok(Some(refusal)),
        Err(Denied::NoMemory) => Err(NoMemory),
    }
}

/// The report on the sources of an accepted program.
fn sources_report<J: Checker>(alloc: Global, sources: &Names<Text>) -> Result<Report, NoMemory>
    ensures verdict { IfOk result (λ report. report.verdict ≡ Verdict.Done) }
    ensures text { IfOk result (λ report. SaysSources J.accepts J.refuses sources.now report.text) }
{
    let mut text = Text::copy(alloc, "program accepted\n")?;
    push_sources::<J>(alloc, &mut text, sources)?;
    Ok(Report {
        verdict: Verdict::Done,
        text,
    })
}

/// The report on a scenario.
fn report_scenario<J: Checker>(alloc: Global, scenario: &Scenario) -> Result<Report, NoMemory>
    ensures { IfOk result (λ report. OnScenario J.accepts J.refuses (contents_of scenario.now) report.verdict report.text) }
{
    match first_refusal::<J>(alloc, &scenario.program)? {
        Some(refusal) => {
            let report = refused_report(alloc, &refusal)?;
            Ok(report)
        }
        None => {
            let report = sources_report::<J>(alloc, &scenario.sources)?;
            Ok(report)
        }
    }
}

/// The report on the bytes of an input.
pub fn report_bytes<J: Checker>(alloc: Global, bytes: &[u8]) -> Result<Report, NoMemory>
    requires { length bytes.now ≤ byte_limit }
    ensures { IfOk result (λ report. CheckReports J.accepts J.refuses bytes.now report.verdict report.text) }
{
    match read_scenario(alloc, bytes) {
        Ok(scenario) => {
            let report = report_scenario::<J>(alloc, &scenario)?;
            Ok(report)
        }
        Err(ScenarioError::Bad(line)) => {
            let report = script_report(alloc, u64::from(line))?;
            Ok(report)
        }
        Err(ScenarioError::NoMemory) => Err(NoMemory),
    }
}
