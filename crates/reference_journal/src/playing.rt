//! Plays in their order, each with its entry, and a change that loads another program.

ghost use Rattle.std.specs.Prelude.{◌≡◌, ◌<◌, ◌≤◌, ◌+◌, length, IfOk, IfNone, OnOk, OnSome};
ghost use Rattle.std.specs.Map.{values_of};
ghost use Rattle.reference_plays.specs.Controller.{IsPlan, controller_of};
ghost use Rattle.reference_journal.specs.Private.Running.{behind, Enters, IsChangeTo, NextsUnfold, RunsOn, StepOf, StepUnfolds};

use crate::changing::play_change;
use crate::next::{Change, Version};
use console_command::Checker;
use cycle_journal::{Answer, Entry, Play};
use plc_text::{Items, NoMemory, Text, narrowed};
use reference_plays::{Controller, Plan, play_cycle, play_reset};
use st_names::Names;
use std::alloc::Global;

/// What a play did.
#[derive(Drop)]
pub enum Step {
    /// It was answered, and the program stays.
    Answered(Answer),
    /// It loaded another program.
    Loaded(Version),
}

/// The step of a change to a source. Where memory is wanting nothing changes.
fn change_step<J: Checker>(
    alloc: Global,
    plan: &Plan<'_>,
    c: &Controller,
    sources: &Names<Text>,
    play: &Play,
    source: u32,
) -> Step
    requires plan { IsPlan plan.now }
    requires change { IsChangeTo play.now source }
    ensures step { StepOf J.accepts J.refuses (values_of sources.now) (controller_of plan.now c.now) play.now result (controller_of plan.now c.now) }
    ensures unfold { StepUnfolds result }
{
    if source >= sources.len() {
        return Step::Answered(Answer::RefusedMemory);
    }
    match play_change::<J>(alloc, plan, c, sources.at(source)) {
        Ok(Change::Loaded(next)) => Step::Loaded(next),
        Ok(Change::Refused(refusal)) => Step::Answered(Answer::Refused(refusal)),
        Err(NoMemory) => Step::Answered(Answer::RefusedMemory),
    }
}

/// What a play does.
fn play_one<J: Checker>(
    alloc: Global,
    plan: &Plan<'_>,
    c: &mut Controller,
    sources: &Names<Text>,
    play: &Play,
) -> Result<Step, NoMemory>
    requires { IsPlan plan.now }
    ensures step { IfOk result (λ step. StepOf J.accepts J.refuses (values_of sources.now) (controller_of plan.now c.old) play.now step (controller_of plan.now c.new)) }
    ensures unfold { IfOk result StepUnfolds }
{
    match play {
        Play::Cycle { task, now, input } => {
            let answer = play_cycle::<J>(alloc, plan, c, task, *now, input.as_slice())?;
            Ok(Step::Answered(answer))
        }
        Play::Change { source, .. } => {
            let step = change_step::<J>(alloc, plan, c, sources, play, *source);
            Ok(step)
        }
        Play::Reset { task } => {
            let answer = play_reset::<J>(alloc, plan, c, task)?;
            Ok(Step::Answered(answer))
        }
    }
}

/// Adds the entry of a play, and gives the program that it loaded, if it did.
fn push_entry(
    version: u32,
    number: u32,
    step: Step,
    entries: &mut Items<Entry>,
) -> Result<Option<Version>, NoMemory>
    ensures { IfOk result (λ next. Enters version number step next entries.old entries.new) }
{
    match step {
        Step::Answered(answer) => {
            entries.push(Entry {
                version,
                play: number,
                answer,
            })?;
            Ok(None)
        }
        Step::Loaded(next) => {
            entries.push(Entry {
                version,
                play: number,
                answer: Answer::Loaded(next.state.version),
            })?;
            Ok(Some(next))
        }
    }
}

/// Plays the play behind those that have an entry, and gives the program that it loads, if it does.
fn play_next<J: Checker>(
    alloc: Global,
    plan: &Plan<'_>,
    c: &mut Controller,
    sources: &Names<Text>,
    plays: &[Play],
    entries: &mut Items<Entry>,
) -> Result<Option<Version>, NoMemory>
    requires plan { IsPlan plan.now }
    requires left { length entries.now < length plays.now }
    ensures run { IfOk result (λ next. RunsOn J.accepts J.refuses (values_of sources.now) plays.now entries.old (controller_of plan.now c.old) entries.new (behind next (controller_of plan.now c.new))) }
    ensures unfold { IfOk result NextsUnfold }
    ensures one_more { OnOk result (length entries.new ≡ length entries.old + 1) }
{
    let place = entries.len();
    let number = narrowed(place + 1)?;
    let version = c.version;
    let step = play_one::<J>(alloc, plan, c, sources, &plays[place])?;
    let next = push_entry(version, number, step, entries)?;
    Ok(next)
}

/// Plays on with one program, up to a change that loads another one, which it gives.
pub fn play_version<J: Checker>(
    alloc: Global,
    plan: &Plan<'_>,
    c: &mut Controller,
    sources: &Names<Text>,
    plays: &[Play],
    entries: &mut Items<Entry>,
) -> Result<Option<Version>, NoMemory>
    requires plan { IsPlan plan.now }
    ensures run { IfOk result (λ next. RunsOn J.accepts J.refuses (values_of sources.now) plays.now entries.old (controller_of plan.now c.old) entries.new (behind next (controller_of plan.now c.new))) }
    ensures unfold { IfOk result NextsUnfold }
    ensures further { IfOk result (λ next. OnSome next (length entries.old < length entries.new)) }
    ensures whole { IfOk result (λ next. IfNone next (length plays.now ≤ length entries.new)) }
{
    'plays: while entries.len() < plays.len() {
        let next = play_next::<J>(alloc, plan, c, sources, plays, entries)?;
        if let Some(next) = next {
            return Ok(Some(next));
        }
    }
    Ok(None)
}
