//! What `play` says on bytes.

ghost use Rattle.std.specs.Prelude.{◌≡◌, ◌≤◌, ℕ, List, length, IfOk, IsTrue};
ghost use Rattle.std.specs.Map.{values_of};
ghost use Rattle.cycle_journal.specs.Fits.{Fits};
ghost use Rattle.cycle_journal.specs.Writing.{journal_text as text_of_journal};
ghost use Rattle.scenario.specs.Scenario.{contents_of};
ghost use Rattle.st_values.specs.View.{program_of};
ghost use Rattle.region_instances.specs.Instances.{RegionsUnfold};
ghost use Rattle.console_command.specs.Outcome.{byte_limit};
ghost use Rattle.console.specs.play_console.Report.{PlayReports, ReportsRun};
ghost use Rattle.console.specs.play_console.Private.Played.{Tells};

use console_command::{Checker, Report, Verdict, refused_report, script_report};
use cycle_journal::{Entry, Play, fits_plays, journal_text};
use plc_text::{Denied, NoMemory, Text};
use reference_journal::{Played, play_all};
use scenario::{Scenario, ScenarioError, read_scenario};
use st_names::Names;
use st_tree::Program;
use std::alloc::Global;

/// Whether each entry is one for the plays.
fn all_fit(plays: &[Play], entries: &[Entry]) -> bool
    ensures { IsTrue result → Fits plays.now entries.now }
{
    for entry in entries {
        if !fits_plays(plays, entry) {
            return false;
        }
    }
    true
}

/// The report of a run on one thread.
fn journal_report(alloc: Global, plays: &[Play], entries: &[Entry]) -> Result<Report, NoMemory>
    ensures verdict { IfOk result (λ report. report.verdict ≡ Verdict.Done) }
    ensures fit { IfOk result (λ report. Fits plays.now entries.now) }
    ensures text { IfOk result (λ report. report.text ≡ text_of_journal plays.now entries.now) }
{
    // This is never met: an entry of a run does not fit its play only where the number of a version is past 32 bits, for which a scenario
    // has too few plays.
    if !all_fit(plays, entries) {
        return Err(NoMemory);
    }
    let text = journal_text(alloc, plays, entries)?;
    Ok(Report {
        verdict: Verdict::Done,
        text,
    })
}

/// The report on what the first load and the plays came to.
fn report_played(alloc: Global, plays: &[Play], played: &Played) -> Result<Report, NoMemory>
    ensures { IfOk result (λ report. Tells plays.now played.now report.verdict report.text) }
{
    match played {
        Played::Entries(entries) => {
            let report = journal_report(alloc, plays, entries.as_slice())?;
            Ok(report)
        }
        Played::Refused(refusal) => {
            let report = refused_report(alloc, refusal)?;
            Ok(report)
        }
    }
}

/// The report on an accepted program and plays.
fn report_accepted<J: Checker>(
    alloc: Global,
    program: Program,
    sources: &Names<Text>,
    plays: &[Play],
) -> Result<Report, NoMemory>
    requires { RegionsUnfold (program_of program) }
    ensures { IfOk result (λ report. (text : List ℕ) → J.accepts text (program_of program)
        → ReportsRun J.accepts J.refuses (values_of sources.now) text plays.now report.verdict report.text) }
{
    let played = play_all::<J>(alloc, program, sources, plays)?;
    let report = report_played(alloc, plays, &played)?;
    Ok(report)
}

/// The report on the text of a first program, the sources that changes load, and plays.
fn report_first<J: Checker>(
    alloc: Global,
    text: &Text,
    sources: &Names<Text>,
    plays: &[Play],
) -> Result<Report, NoMemory>
    ensures { IfOk result (λ report. ReportsRun J.accepts J.refuses (values_of sources.now) text.now plays.now report.verdict report.text) }
{
    match J::check(alloc, text) {
        Ok(program) => {
            let report = report_accepted::<J>(alloc, program, sources, plays)?;
            Ok(report)
        }
        Err(Denied::Refused(refusal)) => {
            let report = refused_report(alloc, &refusal)?;
            Ok(report)
        }
        Err(Denied::NoMemory) => Err(NoMemory),
    }
}

/// The report on a scenario.
fn report_scenario<J: Checker>(alloc: Global, scenario: &Scenario) -> Result<Report, NoMemory>
    ensures { IfOk result (λ report. ReportsRun J.accepts J.refuses (values_of (contents_of scenario.now).sources) (contents_of scenario.now).program (contents_of scenario.now).plays report.verdict report.text) }
{
    let report = report_first::<J>(
        alloc,
        &scenario.program,
        &scenario.sources,
        scenario.plays.as_slice(),
    )?;
    Ok(report)
}

/// The report on the bytes of an input.
pub fn report_bytes<J: Checker>(alloc: Global, bytes: &[u8]) -> Result<Report, NoMemory>
    requires { length bytes.now ≤ byte_limit }
    ensures { IfOk result (λ report. PlayReports J.accepts J.refuses bytes.now report.verdict report.text) }
{
    match read_scenario(alloc, bytes) {
        Ok(scenario) => {
            let report = report_scenario::<J>(alloc, &scenario)?;
            Ok(report)
        }
        Err(ScenarioError::Bad(line)) => {
            let report = script_report(alloc, u64::from(line))?;
            Ok(report)
        }
        Err(ScenarioError::NoMemory) => Err(NoMemory),
    }
}
