//! The questions, and their answers.

ghost use Rattle.std.specs.Prelude.{◌≡◌, IfOk};
ghost use Rattle.std.specs.Arc.{arc_value};
ghost use Rattle.plant_core.specs.Hub.{HasShortInputs};
ghost use Rattle.plant_rules.specs.Next.{IsKit, IsNextWhole};
ghost use Rattle.plant_cell.specs.Plant.{AtRest};

use crate::jobs::{Job, LISTS, do_four};
use crate::plants::make_plant;
use cycle_journal::{Entry, Play};
use plant_cell::{Pass, Plant, SplitError};
use plant_rules::{Controlled, Next};
use plant_tests::Counters;
use plc_text::{NoMemory, Text, number, split_field};
use scenario::{Scenario, read_scenario};
use std::alloc::Global;
use std::sync::Wait;
use std::thread::Threads;

/// Adds a word and a number.
fn put(told: &mut Text, word: &str, n: u64) -> Result<(), NoMemory> {
    told.push_str(word)?;
    told.push_str(" ")?;
    told.push_decimal(n)
}

/// A scenario of so many cycles, in turn of two counters, of the gate, to which nothing is added, and of a task that is not there.
fn cycles_text(alloc: Global, plays: u32) -> Result<Text, NoMemory> {
    let mut text = Text::new(alloc);
    text.push_str("@program\n@plays\n")?;
    for n in 0..plays {
        let line = match n % 4 {
            0 => "cycle A 1 -\n",
            1 => "cycle B 1 -\n",
            2 => "cycle C 0 -\n",
            _ => "cycle Missing 1 -\n",
        };
        text.push_str(line)?;
    }
    text.push_str("@end\n")?;
    Ok(text)
}

/// Whether the entries of each list are in the order of its plays, each once.
fn are_in_order(entries: &[Entry]) -> bool {
    for list in 0..LISTS {
        let mut last = 0;
        for entry in entries {
            if entry.play % LISTS == list {
                if entry.play <= last {
                    return false;
                }
                last = entry.play;
            }
        }
    }
    true
}

/// Splits a pass off, so many times, and joins it again or ends it. Adds how many numbers the pass has then, or how many are made where
/// none is left to make.
fn tell_splits<P: Controlled>(
    told: &mut Text,
    plant: &Plant<P>,
    pass: Pass<P>,
    times: u32,
    is_joined: bool,
) -> Result<(), NoMemory>
    requires plant { pass.seat.table_id ≡ plant.now.table.shared.table_id }
    requires rest { AtRest P.meaning plant.now.table.shared.key.0.value plant.now.passes pass.numbers.items pass.seat.me }
{
    let mut pass = pass;
    for _ in 0..times {
        match plant.split_pass(&mut pass) {
            Ok(other) => {
                if is_joined {
                    plant.join_pass(&mut pass, other);
                } else {
                    drop(other);
                }
            }
            Err(SplitError::Full { made }) => return put(told, "full", made as u64),
            Err(SplitError::NoMemory) => return Err(NoMemory),
        }
    }
    put(told, "numbers", pass.numbers.len() as u64)
}

/// A pass more, of a plant that has enough.
fn one_more<P: Controlled>(plant: &Plant<P>, pass: &mut Pass<P>) -> Result<Pass<P>, NoMemory>
    requires plant { pass.old.seat.table_id ≡ plant.now.table.shared.table_id }
    requires rest { AtRest P.meaning plant.now.table.shared.key.0.value plant.now.passes pass.old.numbers.items pass.old.seat.me }
    ensures plant { pass.new.seat.table_id ≡ plant.now.table.shared.table_id }
    ensures rest { AtRest P.meaning plant.now.table.shared.key.0.value plant.now.passes pass.new.numbers.items pass.new.seat.me }
    ensures other { IfOk result (λ r. (r.seat.table_id ≡ plant.now.table.shared.table_id) × AtRest P.meaning plant.now.table.shared.key.0.value plant.now.passes r.numbers.items r.seat.me) }
{
    match plant.split_pass(pass) {
        Ok(other) => Ok(other),
        Err(_) => Err(NoMemory),
    }
}

/// Has four threads do a job each.
fn on_threads<P: Controlled + Send + Sync, R: Threads + Wait + Sync>(
    rt: &R,
    plant: &Plant<P>,
    pass: Pass<P>,
    plays: &[Play],
    jobs: (Job, Job, Job, Job),
) -> Result<(Pass<P>, usize), NoMemory>
where
    P::Change: Send,
    P::Work: Send,
    requires plant { pass.seat.table_id ≡ plant.now.table.shared.table_id }
    requires rest { AtRest P.meaning plant.now.table.shared.key.0.value plant.now.passes pass.numbers.items pass.seat.me }
    requires plays { plays.now ≡ plant.now.table.shared.key.0.value.script.plays }
    ensures plant { IfOk result (λ r. r.0.seat.table_id ≡ plant.now.table.shared.table_id) }
    ensures rest { IfOk result (λ r. AtRest P.meaning plant.now.table.shared.key.0.value plant.now.passes r.0.numbers.items r.0.seat.me) }
{
    let mut pass = pass;
    let two = one_more(plant, &mut pass)?;
    let three = one_more(plant, &mut pass)?;
    let four = one_more(plant, &mut pass)?;
    Ok(do_four(rt, plant, pass, two, three, four, plays, jobs))
}

/// Has four threads do a job each, ends the plant, and adds what is in it then.
fn tell_jobs<P: Controlled + Send + Sync, R: Threads + Wait + Sync>(
    rt: &R,
    told: &mut Text,
    plant: Plant<P>,
    pass: Pass<P>,
    plays: &[Play],
    jobs: (Job, Job, Job, Job),
) -> Result<(), NoMemory>
where
    P::Change: Send,
    P::Work: Send,
    requires plant { pass.seat.table_id ≡ plant.table.shared.table_id }
    requires rest { AtRest P.meaning plant.table.shared.key.0.value plant.passes pass.numbers.items pass.seat.me }
    requires plays { plays.now ≡ plant.table.shared.key.0.value.script.plays }
{
    let (pass, found) = on_threads(rt, &plant, pass, plays, jobs)?;
    let numbers = pass.numbers.len();
    let core = plant.end(rt, pass);
    put(told, "numbers", numbers as u64)?;
    put(told, ", found", found as u64)?;
    put(told, ", events", core.count() as u64)?;
    put(told, ", entries", core.entries().len() as u64)?;
    if are_in_order(core.entries()) {
        told.push_str(" in order")
    } else {
        told.push_str(" out of order")
    }
}

/// What each thread does: turns, on one, two or four of them, to wait for an entry of another, or the cycles of a list.
fn jobs_of(question: &str, threads: u32, times: u32) -> (Job, Job, Job, Job) {
    let none = Job::Turns(0);
    let turns = Job::Turns(times);
    match question {
        "turns" => (
            turns,
            if threads < 2 { none } else { turns },
            if threads < 4 { none } else { turns },
            if threads < 4 { none } else { turns },
        ),
        "seen" => (Job::Cycles(1), Job::Entry(1), none, none),
        _ => (
            Job::Cycles(1),
            Job::Cycles(2),
            Job::Cycles(3),
            Job::Cycles(0),
        ),
    }
}

/// Adds the answer of a new plant of a script.
fn tell_plant<P: Controlled + Send + Sync, R: Threads + Wait + Sync>(
    rt: &R,
    alloc: Global,
    told: &mut Text,
    first: Next<P>,
    scenario: Scenario,
    question: &str,
    one: u32,
    two: u32,
) -> Result<(), NoMemory>
where
    P::Change: Send,
    P::Work: Send,
    requires inputs { HasShortInputs scenario.plays.value }
    requires whole { IsNextWhole P.meaning (λ t k. IsKit P.meaning P.ready (arc_value first.loaded) t (arc_value k.shared) k.work k.carrier) (arc_value first.loaded) (arc_value first.for_change) first.regions first.kits.items }
{
    let passes = match question {
        "split" | "rejoin" => one,
        _ => 4,
    };
    if passes < 1 || passes > 64 {
        return told.push_str("no plant");
    }
    let (plays, sources, phases) = scenario.into_shared();
    let ours = plays.clone()?;
    let (plant, pass) = make_plant(alloc, first, ours, sources, phases, passes)?;
    if question == "split" || question == "rejoin" {
        return tell_splits(told, &plant, pass, two, question == "rejoin");
    }
    let jobs = jobs_of(question, one, two);
    tell_jobs(rt, told, plant, pass, plays.as_slice(), jobs)
}

/// Adds the answer to a question.
pub fn tell<R: Threads + Wait + Sync>(
    rt: &R,
    alloc: Global,
    told: &mut Text,
    line: &str,
) -> Result<(), NoMemory> {
    let (question, words) = split_field(line);
    let (word, behind) = split_field(words);
    let one = number(word).unwrap_or(0);
    let two = number(behind).unwrap_or(0);
    let plays = if question == "cycles" { one } else { 4 };
    let text = cycles_text(alloc, plays)?;
    if text.len() >= u32::MAX as usize {
        return told.push_str("too long");
    }
    let first = Counters::first(alloc)?;
    match read_scenario(alloc, text.as_bytes()) {
        Ok(scenario) => tell_plant(rt, alloc, told, first, scenario, question, one, two),
        Err(_) => told.push_str("no scenario"),
    }
}
