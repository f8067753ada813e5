//! Cycles, changes and resets, each begun and ended before the next.

ghost use Rattle.std.specs.Prelude.{◌≡◌, ◌<◌, suc, true, [], length, Some};
ghost use Rattle.std.specs.Arc.{arc_value};
ghost use Rattle.std.specs.Map.{values_of};
ghost use Rattle.cycle_journal.specs.Interleaving.{InOrder};
ghost use Rattle.cycle_journal.specs.Play.{play_numbered};
ghost use Rattle.plant_rules.specs.Meaning.{Whole};
ghost use Rattle.plant_rules.specs.History.{state_of, at_play, is_cycle, is_change, is_reset, source_of, wanted_by, under_way};
ghost use Rattle.core_plays.specs.Playable.{SameCore, IsPlayable};
ghost use Rattle.core_plays.specs.Private.Rest.{StandsWith, RestsAt};

use cycle_journal::Play;
use plant_core::{Begun, Core, ResetDone, Wanted, Wish};
use plant_rules::{Controlled, Quiet};
use plc_text::Text;
use st_names::Names;
use std::alloc::Global;

/// The number of the one caller.
const CALLER: u32 = 0;

// `done` plays have their entries, and the next one is taken.

fn run_cycle<P: Controlled>(core: &mut Core<P>, done: u32)
    requires few { done < 65536 }
    requires there { done < length core.old.script.plays }
    requires cycle { is_cycle (at_play P.meaning core.old.script (suc done)) ≡ true }
    requires rest { RestsAt P.meaning done core.old }
    ensures same { SameCore core.old core.new }
    ensures rest { RestsAt P.meaning (suc done) core.new }
{
    match core.begin(CALLER, done + 1) {
        Begun::Claim(claim) => core.finish(CALLER, claim.run()),
        Begun::Answered => {}
        Begun::Twice => unreachable!(),
        Begun::Early { .. } => unreachable!(),
        Begun::Paused { .. } => unreachable!(),
        Begun::Busy { .. } => unreachable!(),
    }
}

fn release<P: Controlled>(core: &mut Core<P>, done: u32)
    requires few { done < 65536 }
    requires there { done < length core.old.script.plays }
    requires reset { is_reset (at_play P.meaning core.old.script (suc done)) ≡ true }
    requires rest { RestsAt P.meaning done core.old }
    ensures same { SameCore core.old core.new }
    ensures rest { RestsAt P.meaning (suc done) core.new }
{
    match core.reset(CALLER, done + 1) {
        ResetDone::Made => {}
        ResetDone::Twice => unreachable!(),
        ResetDone::Early { .. } => unreachable!(),
    }
}

fn wish_for<P: Controlled>(core: &mut Core<P>, done: u32) -> Wish
    requires few { done < 65536 }
    requires there { done < length core.old.script.plays }
    requires change { is_change (at_play P.meaning core.old.script (suc done)) ≡ true }
    requires rest { RestsAt P.meaning done core.old }
    ensures wish { result.play ≡ suc done }
    ensures same { SameCore core.old core.new }
    ensures version { (state_of P.meaning core.new).version ≡ (state_of P.meaning core.old).version }
    ensures stands { StandsWith P.meaning done (wanted_by (suc done) 0) core.new }
{
    match core.want(CALLER, done + 1) {
        Wanted::Wish(wish) => wish,
        Wanted::Twice => unreachable!(),
        Wanted::Early { .. } => unreachable!(),
        Wanted::Paused { .. } => unreachable!(),
    }
}

// A change that is under way ends, with its version or with a hook's refusal.
fn carry_out<P: Controlled>(core: &mut Core<P>, done: u32, quiet: Quiet<P>)
    requires few { done < 65536 }
    requires there { done < length core.old.script.plays }
    requires stands { StandsWith P.meaning done (under_way (suc done) 0 quiet.regions) core.old }
    requires regions { quiet.regions ≡ (state_of P.meaning core.old).store }
    requires old { arc_value quiet.old ≡ (state_of P.meaning core.old).version }
    requires base { P.base_of quiet.change ≡ arc_value quiet.old }
    requires fresh { P.fresh quiet.change }
    requires text { source_of core.old.script.sources (at_play P.meaning core.old.script (suc done)) ≡ Some (P.text_of quiet.change) }
    requires whole { Whole (P.meaning.fit (arc_value quiet.old)) (P.meaning.region_total (arc_value quiet.old)) quiet.regions }
    ensures same { SameCore core.old core.new }
    ensures rest { RestsAt P.meaning (suc done) core.new }
{
    match quiet.migrate() {
        Ok(migrated) => core.finish_change(CALLER, migrated),
        Err((quiet, refusal)) => core.resume(CALLER, quiet, refusal),
    }
}

fn make_change<P: Controlled>(alloc: Global, core: &mut Core<P>, done: u32, text: &Text)
    requires few { done < 65536 }
    requires there { done < length core.old.script.plays }
    requires change { is_change (at_play P.meaning core.old.script (suc done)) ≡ true }
    requires text { source_of core.old.script.sources (at_play P.meaning core.old.script (suc done)) ≡ Some text.now }
    requires may { IsPlayable P.meaning core.old }
    requires rest { RestsAt P.meaning done core.old }
    ensures same { SameCore core.old core.new }
    ensures rest { RestsAt P.meaning (suc done) core.new }
{
    let wish = wish_for(core, done);
    core.is_lawful();
    let version = core.loaded().version();
    match core.loaded().prepare(alloc, text) {
        Ok(change) => match core.begin_change(CALLER, wish, change) {
            Ok(quiet) => carry_out(core, done, quiet),
            Err(_) => unreachable!(),
        },
        Err(why) => match core.refuse(CALLER, wish, version, why) {
            Ok(()) => {}
            Err(_) => unreachable!(),
        },
    }
}

fn play_next<P: Controlled>(
    alloc: Global,
    core: &mut Core<P>,
    done: u32,
    play: &Play,
    sources: &Names<Text>,
)
    requires play { play_numbered core.old.script.plays (suc done) ≡ Some play.now }
    requires sources { values_of sources.now ≡ core.old.script.sources }
    requires may { IsPlayable P.meaning core.old }
    requires rest { RestsAt P.meaning done core.old }
    ensures same { SameCore core.old core.new }
    ensures rest { RestsAt P.meaning (suc done) core.new }
{
    match play {
        Play::Cycle { .. } => run_cycle(core, done),
        Play::Change { source, .. } => make_change(alloc, core, done, sources.at(*source)),
        Play::Reset { .. } => release(core, done),
    }
}

/// Takes the plays of a new core in their order, each to its end before the next begins: cycles run, changes are prepared and carried out, and
/// resets release. Want of memory in a change is its entry, and changes nothing else; so it always comes to the last play, and each has its
/// entry. That the entries are a run of the first version's meaning is a law of legal histories.
pub fn play_in_order<P: Controlled>(
    alloc: Global,
    core: &mut Core<P>,
    plays: &[Play],
    sources: &Names<Text>,
)
    requires plays { plays.now ≡ core.old.script.plays }
    requires sources { values_of sources.now ≡ core.old.script.sources }
    requires may { IsPlayable P.meaning core.old }
    requires blank { core.old.history ≡ [] }
    ensures same { SameCore core.old core.new }
    ensures order { InOrder plays.now (state_of P.meaning core.new).entries }
{
    let mut done = 0;
    for play in plays {
        play_next(alloc, core, done, play, sources);
        done += 1;
    }
}
