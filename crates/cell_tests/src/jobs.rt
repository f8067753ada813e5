//! What passes do on threads of their own.

ghost use Rattle.std.specs.Prelude.{◌≡◌, ◌≤◌, true, length, IfOk};
ghost use Rattle.cycle_journal.specs.Play.{play_numbered};
ghost use Rattle.plant_rules.specs.History.{at_play, is_cycle};
ghost use Rattle.plant_cell.specs.Plant.{AtRest};

use cycle_journal::Play;
use plant_cell::{Pass, Plant, Tried};
use plant_rules::Controlled;
use std::sync::Wait;
use std::thread::{Threads, join, yield_now};

/// How many lists of plays there are, one for each thread.
pub const LISTS: u32 = 4;

/// What one thread does.
#[derive(Clone, Copy, Drop)]
pub enum Job {
    /// So many turns, in which nothing happens.
    Turns(u32),
    /// The cycles of a list, which are its plays `list`, `list + LISTS` and so on.
    Cycles(u32),
    /// Turns until a play has its entry.
    Entry(u32),
}

fn is_cycle_at(plays: &[Play], play: u32) -> bool
    ensures { result ≡ true → (play ≤ length plays.now) × (is_cycle (play_numbered plays.now play) ≡ true) }
{
    if play == 0 || play as usize > plays.len() {
        return false;
    }
    match &plays[play as usize - 1] {
        Play::Cycle { .. } => true,
        Play::Change { .. } => false,
        Play::Reset { .. } => false,
    }
}

// Does a cycle, unless it has to be tried again.
fn attempt<P: Controlled, R: Wait>(rt: &R, plant: &Plant<P>, pass: &mut Pass<P>, play: u32) -> bool
    requires plant { pass.old.seat.table_id ≡ plant.now.table.shared.table_id }
    requires rest { AtRest P.meaning plant.now.table.shared.key.0.value plant.now.passes pass.old.numbers.items pass.old.seat.me }
    requires there { play ≤ length plant.now.table.shared.key.0.value.script.plays }
    requires cycle { is_cycle (at_play P.meaning plant.now.table.shared.key.0.value.script play) ≡ true }
    ensures plant { pass.new.seat.table_id ≡ plant.now.table.shared.table_id }
    ensures rest { AtRest P.meaning plant.now.table.shared.key.0.value plant.now.passes pass.new.numbers.items pass.new.seat.me }
{
    match plant.try_play(rt, pass, play) {
        Tried::Claim(claim) => {
            let ran = claim.run();
            plant.end_play(rt, pass, ran);
            true
        }
        Tried::Done => true,
        Tried::Again => false,
    }
}

fn do_cycle<P: Controlled, R: Wait>(rt: &R, plant: &Plant<P>, pass: &mut Pass<P>, play: u32)
    requires plant { pass.old.seat.table_id ≡ plant.now.table.shared.table_id }
    requires rest { AtRest P.meaning plant.now.table.shared.key.0.value plant.now.passes pass.old.numbers.items pass.old.seat.me }
    requires there { play ≤ length plant.now.table.shared.key.0.value.script.plays }
    requires cycle { is_cycle (at_play P.meaning plant.now.table.shared.key.0.value.script play) ≡ true }
    ensures plant { pass.new.seat.table_id ≡ plant.now.table.shared.table_id }
    ensures rest { AtRest P.meaning plant.now.table.shared.key.0.value plant.now.passes pass.new.numbers.items pass.new.seat.me }
{
    for _ in rt.forever() {
        if attempt(rt, plant, pass, play) {
            return;
        }
        yield_now();
    }
    unreachable!()
}

// Does the play where it is a cycle of the list.
fn do_of_list<P: Controlled, R: Wait>(
    rt: &R,
    plant: &Plant<P>,
    pass: &mut Pass<P>,
    plays: &[Play],
    play: u32,
    list: u32,
)
    requires plant { pass.old.seat.table_id ≡ plant.now.table.shared.table_id }
    requires rest { AtRest P.meaning plant.now.table.shared.key.0.value plant.now.passes pass.old.numbers.items pass.old.seat.me }
    requires plays { plays.now ≡ plant.now.table.shared.key.0.value.script.plays }
    ensures plant { pass.new.seat.table_id ≡ plant.now.table.shared.table_id }
    ensures rest { AtRest P.meaning plant.now.table.shared.key.0.value plant.now.passes pass.new.numbers.items pass.new.seat.me }
{
    if play % LISTS != list {
        return;
    }
    if !is_cycle_at(plays, play) {
        return;
    }
    do_cycle(rt, plant, pass, play);
}

fn do_list<P: Controlled, R: Wait>(
    rt: &R,
    plant: &Plant<P>,
    pass: Pass<P>,
    plays: &[Play],
    list: u32,
) -> Pass<P>
    requires plant { pass.seat.table_id ≡ plant.now.table.shared.table_id }
    requires rest { AtRest P.meaning plant.now.table.shared.key.0.value plant.now.passes pass.numbers.items pass.seat.me }
    requires plays { plays.now ≡ plant.now.table.shared.key.0.value.script.plays }
    ensures plant { result.seat.table_id ≡ plant.now.table.shared.table_id }
    ensures rest { AtRest P.meaning plant.now.table.shared.key.0.value plant.now.passes result.numbers.items result.seat.me }
{
    let mut pass = pass;
    for play in 0..u32::MAX {
        if play as usize > plays.len() {
            return pass;
        }
        do_of_list(rt, plant, &mut pass, plays, play, list);
    }
    pass
}

fn take_turns<P: Controlled, R: Wait>(
    rt: &R,
    plant: &Plant<P>,
    pass: Pass<P>,
    times: u32,
) -> Pass<P>
    requires plant { pass.seat.table_id ≡ plant.now.table.shared.table_id }
    requires rest { AtRest P.meaning plant.now.table.shared.key.0.value plant.now.passes pass.numbers.items pass.seat.me }
    ensures plant { result.seat.table_id ≡ plant.now.table.shared.table_id }
    ensures rest { AtRest P.meaning plant.now.table.shared.key.0.value plant.now.passes result.numbers.items result.seat.me }
{
    let mut pass = pass;
    for _ in 0..times {
        let turn = plant.enter(rt, &mut pass);
        plant.leave(&mut pass, turn);
    }
    pass
}

// Waits until the play has its entry, and gives the number of events then.
fn wait_for<P: Controlled, R: Wait>(
    rt: &R,
    plant: &Plant<P>,
    pass: Pass<P>,
    play: u32,
) -> (Pass<P>, usize)
    requires plant { pass.seat.table_id ≡ plant.now.table.shared.table_id }
    requires rest { AtRest P.meaning plant.now.table.shared.key.0.value plant.now.passes pass.numbers.items pass.seat.me }
    requires there { play ≤ length plant.now.table.shared.key.0.value.script.plays }
    ensures plant { result.0.seat.table_id ≡ plant.now.table.shared.table_id }
    ensures rest { AtRest P.meaning plant.now.table.shared.key.0.value plant.now.passes result.0.numbers.items result.0.seat.me }
{
    let mut pass = pass;
    for _ in rt.forever() {
        let turn = plant.enter(rt, &mut pass);
        let is_done = turn.core.is_done(play);
        let events = turn.core.count();
        plant.leave(&mut pass, turn);
        if is_done {
            return (pass, events);
        }
        yield_now();
    }
    unreachable!()
}

// Does a job, and gives how many events were found by one that waits.
fn do_job<P: Controlled, R: Wait>(
    rt: &R,
    plant: &Plant<P>,
    pass: Pass<P>,
    plays: &[Play],
    job: Job,
) -> (Pass<P>, usize)
    requires plant { pass.seat.table_id ≡ plant.now.table.shared.table_id }
    requires rest { AtRest P.meaning plant.now.table.shared.key.0.value plant.now.passes pass.numbers.items pass.seat.me }
    requires plays { plays.now ≡ plant.now.table.shared.key.0.value.script.plays }
    ensures plant { result.0.seat.table_id ≡ plant.now.table.shared.table_id }
    ensures rest { AtRest P.meaning plant.now.table.shared.key.0.value plant.now.passes result.0.numbers.items result.0.seat.me }
{
    match job {
        Job::Turns(times) => (take_turns(rt, plant, pass, times), 0),
        Job::Cycles(list) => (do_list(rt, plant, pass, plays, list), 0),
        Job::Entry(play) => {
            if play as usize > plays.len() {
                return (pass, 0);
            }
            wait_for(rt, plant, pass, play)
        }
    }
}

// Two passes do a job each, on two threads: one pass of them, and the events that the second found.
fn do_two<P: Controlled + Send + Sync, R: Threads + Wait + Sync>(
    rt: &R,
    plant: &Plant<P>,
    one: Pass<P>,
    two: Pass<P>,
    plays: &[Play],
    first: Job,
    second: Job,
) -> (Pass<P>, usize)
where
    P::Change: Send,
    P::Work: Send,
    requires plant { (one.seat.table_id ≡ plant.now.table.shared.table_id) × (two.seat.table_id ≡ plant.now.table.shared.table_id) }
    requires one { AtRest P.meaning plant.now.table.shared.key.0.value plant.now.passes one.numbers.items one.seat.me }
    requires two { AtRest P.meaning plant.now.table.shared.key.0.value plant.now.passes two.numbers.items two.seat.me }
    requires plays { plays.now ≡ plant.now.table.shared.key.0.value.script.plays }
    ensures plant { result.0.seat.table_id ≡ plant.now.table.shared.table_id }
    ensures rest { AtRest P.meaning plant.now.table.shared.key.0.value plant.now.passes result.0.numbers.items result.0.seat.me }
{
    let (ours, theirs) = join(
        rt,
        || do_job(rt, plant, one, plays, first),
        || do_job(rt, plant, two, plays, second),
    );
    let (mut pass, _) = ours;
    let (other, found) = theirs;
    plant.join_pass(&mut pass, other);
    (pass, found)
}

/// Four passes do a job each, on four threads: one pass of them, and the events that the second found.
pub fn do_four<P: Controlled + Send + Sync, R: Threads + Wait + Sync>(
    rt: &R,
    plant: &Plant<P>,
    one: Pass<P>,
    two: Pass<P>,
    three: Pass<P>,
    four: Pass<P>,
    plays: &[Play],
    jobs: (Job, Job, Job, Job),
) -> (Pass<P>, usize)
where
    P::Change: Send,
    P::Work: Send,
    requires plant { (one.seat.table_id ≡ plant.now.table.shared.table_id) × (two.seat.table_id ≡ plant.now.table.shared.table_id) × (three.seat.table_id ≡ plant.now.table.shared.table_id) × (four.seat.table_id ≡ plant.now.table.shared.table_id) }
    requires one { AtRest P.meaning plant.now.table.shared.key.0.value plant.now.passes one.numbers.items one.seat.me }
    requires two { AtRest P.meaning plant.now.table.shared.key.0.value plant.now.passes two.numbers.items two.seat.me }
    requires three { AtRest P.meaning plant.now.table.shared.key.0.value plant.now.passes three.numbers.items three.seat.me }
    requires four { AtRest P.meaning plant.now.table.shared.key.0.value plant.now.passes four.numbers.items four.seat.me }
    requires plays { plays.now ≡ plant.now.table.shared.key.0.value.script.plays }
    ensures plant { result.0.seat.table_id ≡ plant.now.table.shared.table_id }
    ensures rest { AtRest P.meaning plant.now.table.shared.key.0.value plant.now.passes result.0.numbers.items result.0.seat.me }
{
    let (first, second, third, fourth) = jobs;
    let (ours, theirs) = join(
        rt,
        || -> (Pass<P>, usize)
            requires { (one.seat.table_id ≡ plant.now.table.shared.table_id) × (two.seat.table_id ≡ plant.now.table.shared.table_id) × AtRest P.meaning plant.now.table.shared.key.0.value plant.now.passes one.numbers.items one.seat.me × AtRest P.meaning plant.now.table.shared.key.0.value plant.now.passes two.numbers.items two.seat.me × (plays.now ≡ plant.now.table.shared.key.0.value.script.plays) }
            ensures { (result.0.seat.table_id ≡ plant.entry.now.table.shared.table_id) × AtRest P.meaning plant.entry.now.table.shared.key.0.value plant.entry.now.passes result.0.numbers.items result.0.seat.me }
        { do_two(rt, plant, one, two, plays, first, second) },
        || -> (Pass<P>, usize)
            requires { (three.seat.table_id ≡ plant.now.table.shared.table_id) × (four.seat.table_id ≡ plant.now.table.shared.table_id) × AtRest P.meaning plant.now.table.shared.key.0.value plant.now.passes three.numbers.items three.seat.me × AtRest P.meaning plant.now.table.shared.key.0.value plant.now.passes four.numbers.items four.seat.me × (plays.now ≡ plant.now.table.shared.key.0.value.script.plays) }
            ensures { (result.0.seat.table_id ≡ plant.entry.now.table.shared.table_id) × AtRest P.meaning plant.entry.now.table.shared.key.0.value plant.entry.now.passes result.0.numbers.items result.0.seat.me }
        { do_two(rt, plant, three, four, plays, third, fourth) },
    );
    let (mut pass, found) = ours;
    let (other, _) = theirs;
    plant.join_pass(&mut pass, other);
    (pass, found)
}
