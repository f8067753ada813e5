//! The scenario that is made of a number, to try many threads.

ghost use Rattle.std.specs.Prelude.{◌≡◌, ℕ, ◌+◌, ◌-◌, ◌*◌, ◌≤◌, ◌<◌, List, [], ◌∷◌, ◌++◌, codes, IfOk, OnOk};
ghost use Rattle.plc_text.specs.Lines.{text_of};
ghost use Rattle.st_names.specs.Names.{HasName};
ghost use Rattle.scenario.specs.Made as made_of;
ghost use Rattle.scenario.specs.Private.Made as pieces;
ghost use Rattle.scenario.specs.Reading.{phases_from};
ghost use Rattle.scenario.specs.Scenario.{contents_of};

use crate::scenario::{Scenario, shared};
use cycle_journal::Play;
use plc_text::{Items, NoMemory, Text};
use st_names::{AddError, Names};
use std::alloc::Global;

/// The lines of a source from the statement on `sum` on.
const SOURCE_REST: &str = "sum := sum * 3 + a; Step := sum; END_METHOD END_FUNCTION_BLOCK
PROGRAM Work1 VAR c : Cell; n AT %ID0 : UDINT; q AT %QD0 : UDINT; END_VAR q := c.Step(a := n); END_PROGRAM
PROGRAM Work2 VAR c : Cell; n AT %ID0 : UDINT; q AT %QD1 : UDINT; END_VAR q := c.Step(a := n); END_PROGRAM
PROGRAM Work3 VAR c : Cell; n AT %ID0 : UDINT; q AT %QD2 : UDINT; END_VAR q := c.Step(a := n); END_PROGRAM
PROGRAM Work4 VAR c : Cell; n AT %ID0 : UDINT; q AT %QD3 : UDINT; END_VAR q := c.Step(a := n); END_PROGRAM
CONFIGURATION Made TASK T1(); TASK T2(); TASK T3(); TASK T4();
PROGRAM R1 WITH T1 : Work1; PROGRAM R2 WITH T2 : Work2; PROGRAM R3 WITH T3 : Work3; PROGRAM R4 WITH T4 : Work4;
END_CONFIGURATION
";

/// The scenario with so many rounds. In each round each of four tasks has eight cycles, and behind them a change alone
/// loads the other one of two sources, which differ in one variable.
pub fn make_load(alloc: Global, rounds: u32) -> Result<Scenario, NoMemory>
    requires { rounds ≤ 250 }
    ensures { IfOk result (λ scenario. contents_of scenario ≡ made_of.made rounds) }
{
    let plays = plays(alloc, rounds)?;
    let phases = phases(alloc, rounds)?;
    let sources = sources(alloc)?;
    shared(alloc, source_a(alloc)?, sources, plays, phases)
}

fn source_a(alloc: Global) -> Result<Text, NoMemory>
    ensures { IfOk result (λ text. text ≡ text_of made_of.source_a) }
{
    source(alloc, "sum : UDINT;", "")
}

fn source_b(alloc: Global) -> Result<Text, NoMemory>
    ensures { IfOk result (λ text. text ≡ text_of made_of.source_b) }
{
    source(alloc, "count : UDINT; sum : UDINT;", "count := count + 1; ")
}

/// The text of a source whose function block has these variables, and these statements before the one on `sum`.
#[tactic(auto, unfolding(crate::specs::Private::Made::source_rest))]
fn source(alloc: Global, variables: &str, statements: &str) -> Result<Text, NoMemory>
    ensures { IfOk result (λ text. text ≡ pieces.source_text variables.now statements.now) }
{
    let mut text = Text::copy(alloc, "FUNCTION_BLOCK Cell VAR ")?;
    text.push_str(variables)?;
    text.push_str(" END_VAR\nMETHOD Step : UDINT VAR_INPUT a : UDINT; END_VAR\n")?;
    text.push_str(statements)?;
    text.push_str(SOURCE_REST)?;
    Ok(text)
}

fn sources(alloc: Global) -> Result<Names<Text>, NoMemory>
    ensures { IfOk result (λ sources. sources ≡ (codes "A", text_of made_of.source_a) ∷ (codes "B", text_of made_of.source_b) ∷ []) }
{
    let mut sources = Names::new(alloc);
    add_sources(alloc, &mut sources)?;
    Ok(sources)
}

/// Adds both sources, where there are none.
fn add_sources(alloc: Global, sources: &mut Names<Text>) -> Result<(), NoMemory>
    requires { sources.old ≡ [] }
    ensures { OnOk result (sources.new ≡ (codes "A", text_of made_of.source_a) ∷ (codes "B", text_of made_of.source_b) ∷ []) }
{
    add(sources, Text::copy(alloc, "A")?, source_a(alloc)?)?;
    add(sources, Text::copy(alloc, "B")?, source_b(alloc)?)?;
    Ok(())
}

/// Adds a source whose name is not taken.
fn add(sources: &mut Names<Text>, name: Text, text: Text) -> Result<(), NoMemory>
    requires { HasName sources.old name → ⊥ }
    ensures { OnOk result (sources.new ≡ sources.old ++ (name, text) ∷ []) }
{
    match sources.add(name, text) {
        Ok(_) => Ok(()),
        Err(AddError::NoMemory { .. }) => Err(NoMemory),
        Err(AddError::Taken { .. }) => unreachable!(),
    }
}

/// The plays of all rounds.
fn plays(alloc: Global, rounds: u32) -> Result<Items<Play>, NoMemory>
    requires { rounds ≤ 250 }
    ensures { IfOk result (λ plays. plays ≡ made_of.made_plays rounds) }
{
    let mut plays = Items::new(alloc);
    for round in 0..rounds {
        push_round(alloc, &mut plays, round + 1)?;
    }
    Ok(plays)
}

/// Adds the plays of a round, of which the first has number 1.
fn push_round(alloc: Global, plays: &mut Items<Play>, round: u32) -> Result<(), NoMemory>
    requires first { 1 ≤ round }
    requires last { round ≤ 250 }
    ensures { OnOk result (plays.new ≡ plays.old ++ made_of.made_round round) }
{
    push_cycles(alloc, plays, round)?;
    plays.push(change(alloc, round)?)?;
    Ok(())
}

/// Adds the cycles of a round.
fn push_cycles(alloc: Global, plays: &mut Items<Play>, round: u32) -> Result<(), NoMemory>
    requires first { 1 ≤ round }
    requires last { round ≤ 250 }
    ensures { OnOk result (plays.new ≡ plays.old ++ made_of.made_cycles round) }
{
    for turn in 0..8 {
        push_turn(alloc, plays, 10 * (8 * (round - 1) + (turn + 1)))?;
    }
    Ok(())
}

/// Adds one cycle of each task.
fn push_turn(alloc: Global, plays: &mut Items<Play>, now: u32) -> Result<(), NoMemory>
    ensures { OnOk result (plays.new ≡ plays.old ++ made_of.made_turn now) }
{
    for task in 0..4u8 {
        plays.push(cycle(alloc, now, task + 1)?)?;
    }
    Ok(())
}

fn cycle(alloc: Global, now: u32, task: u8) -> Result<Play, NoMemory>
    ensures { IfOk result (λ play. play ≡ made_of.made_cycle now task) }
{
    let mut name = Text::copy(alloc, "T")?;
    name.push_decimal(u64::from(task))?;
    let input = Items::from_slice(alloc, &[task, 0, 0, 0])?;
    Ok(Play::Cycle {
        task: name,
        now,
        input,
    })
}

/// The change at the end of a round.
fn change(alloc: Global, round: u32) -> Result<Play, NoMemory>
    ensures { IfOk result (λ play. play ≡ made_of.made_change round) }
{
    let (name, source) = if round % 2 == 1 { ("B", 1) } else { ("A", 0) };
    let name = Text::copy(alloc, name)?;
    Ok(Play::Change { name, source })
}

/// The phases: one of the cycles and one of the change for each round, and an empty one behind the last.
fn phases(alloc: Global, rounds: u32) -> Result<Items<(u32, u32)>, NoMemory>
    requires { rounds ≤ 250 }
    ensures { IfOk result (λ phases. phases ≡ made_of.made_phases rounds) }
{
    let mut phases = Items::new(alloc);
    for round in 0..rounds {
        let first = 33 * round + 1;
        phases.push((first, first + 32))?;
        phases.push((first + 32, first + 33))?;
    }
    let behind = 33 * rounds + 1;
    phases.push((behind, behind))?;
    Ok(phases)
}
