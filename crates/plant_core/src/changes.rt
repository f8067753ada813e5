//! Changes: wanted, begun, and ended.

ghost use Rattle.std.specs.Prelude.{◌≡◌, ◌<◌, ◌≤◌, ℕ, true, length, Ok, Err, IfOk, IfErr};
ghost use Rattle.std.specs.Arc.{arc_value};
ghost use Rattle.plant_rules.specs.Meaning.{Whole};
ghost use Rattle.plant_rules.specs.Next.{IsKit, IsSupplied};
ghost use Rattle.plant_rules.specs.History.{state_of, with_event, wanted, quieted, changed, resumed, denied, is_change, at_play, wanted_by, under_way, IsOpen, ComesTo, Denies, Follows};
ghost use Rattle.plant_core.specs.Answers.{WantedAs, LaterAs, play_of, denial_of};

use crate::answers::{Later, OlderWish, Timing, Wanted, Wish};
use crate::event::{Event, What};
use crate::hub::{Core, take_some};
use crate::stage::{Ongoing, Status};
use crate::tasks::{release, renew};
use cycle_journal::{Answer, Entry};
use plant_rules::{Controlled, Migrated, Next, Quiet};
use plc_text::{Denied, Refusal};
use std::mem;
use std::snapshot::Snapshot;

fn answer_in(why: Denied) -> Answer
    ensures { result ≡ denial_of why }
{
    match why {
        Denied::Refused(refusal) => Answer::Refused(refusal),
        Denied::NoMemory => Answer::RefusedMemory,
    }
}

impl<P: Controlled> Core<P> {
    fn note_wanted(&mut self, who: u32, play: u32)
        requires { Follows P.meaning self.old.script (state_of P.meaning self.old) who play (wanted (state_of P.meaning self.old).version) }
        ensures { self.new ≡ with_event self.old who play (wanted (state_of P.meaning self.old).version) }
    {
        let version = Snapshot::of(&*self.stock.loaded);
        self.ongoing = Ongoing::Wanted(play, who);
        self.events.push_reserved(Event {
            who,
            play,
            what: What::Wanted(version),
        });
    }

    /// Asks for the change of a play. From then on no cycle begins until it has ended.
    pub fn want(&mut self, who: u32, play: u32) -> Wanted
        requires there { play ≤ length self.old.script.plays }
        requires change { is_change (at_play P.meaning self.old.script play) ≡ true }
        ensures { WantedAs P.meaning self.old self.new who play result }
    {
        match self.place_once(play) {
            Timing::Twice => Wanted::Twice,
            Timing::Early(q) => Wanted::Early { play: q },
            Timing::Next => match self.paused() {
                Some(change) => Wanted::Paused { change },
                None => {
                    self.note_wanted(who, play);
                    Wanted::Wish(Wish { play })
                }
            },
        }
    }

    // Takes all regions for the change that is wanted.
    fn quiet(&mut self, who: u32, play: u32, change: P::Change) -> Quiet<P>
        requires wish { (state_of P.meaning self.old).turn ≡ wanted_by play who }
        requires none { (t : ℕ) → IsOpen P.meaning self.old.script (state_of P.meaning self.old) t → ⊥ }
        ensures event { self.new ≡ with_event self.old who play (quieted result.regions) }
        ensures regions { result.regions ≡ (state_of P.meaning self.old).store }
        ensures old { arc_value result.old ≡ (state_of P.meaning self.old).version }
        ensures change { result.change ≡ change }
    {
        let nothing = take_some(&mut self.stock.nothing);
        let regions = mem::replace(&mut self.stock.regions, nothing);
        let old = take_some(&mut self.stock.for_change);
        let taken = Snapshot::of(&regions);
        let again = Snapshot::of(&regions);
        self.ongoing = Ongoing::UnderWay(play, who, again);
        self.events.push_reserved(Event {
            who,
            play,
            what: What::Quieted(taken),
        });
        Quiet {
            old,
            regions,
            change,
        }
    }

    /// Begins the change that is wanted, which was prepared for the text of the play's source: hands out all regions and
    /// the old version.
    pub fn begin_change(
        &mut self,
        who: u32,
        wish: Wish,
        change: P::Change,
    ) -> Result<Quiet<P>, Later<P::Change>>
        requires wish { (state_of P.meaning self.old).turn ≡ wanted_by wish.play who }
        requires base { P.meaning.number (P.base_of change) ≡ P.meaning.number (state_of P.meaning self.old).version → P.base_of change ≡ (state_of P.meaning self.old).version }
        ensures ok { IfOk result (λ q. (self.new ≡ with_event self.old who wish.play (quieted q.regions)) × (q.regions ≡ (state_of P.meaning self.old).store) × (arc_value q.old ≡ (state_of P.meaning self.old).version) × (q.change ≡ change) × (P.base_of change ≡ (state_of P.meaning self.old).version) × ((t : ℕ) → IsOpen P.meaning self.old.script (state_of P.meaning self.old) t → ⊥)) }
        ensures whole { IfOk result (λ q. Whole (P.meaning.fit (arc_value q.old)) (P.meaning.region_total (arc_value q.old)) q.regions) }
        ensures err { IfErr result (λ e. (self.new ≡ self.old) × LaterAs e P.meaning (state_of P.meaning self.old) self.old.script wish change (P.meaning.number (P.base_of change))) }
    {
        let loaded = self.stock.loaded.version();
        let prepared_for = P::prepared_for(&change);
        if prepared_for != loaded {
            return Err(Later::Older {
                prepared_for,
                loaded,
                wish,
                change,
            });
        }
        match self.open_task() {
            Some(holder) => Err(Later::Busy {
                holder,
                wish,
                change,
            }),
            None => {
                let Wish { play } = wish;
                Ok(self.quiet(who, play, change))
            }
        }
    }

    // The play of the change at hand.
    fn changing(&self) -> u32
        ensures { result ≡ play_of (state_of P.meaning self.now).turn }
    {
        match &self.ongoing {
            Ongoing::Free => 0,
            Ongoing::Wanted(play, _) => *play,
            Ongoing::UnderWay(play, _, _) => *play,
        }
    }

    /// Ends the change under way, which was refused on its contents: these come home, and the old version stays loaded.
    pub fn resume(&mut self, who: u32, quiet: Quiet<P>, refusal: Refusal)
        requires under { (state_of P.meaning self.old).turn ≡ under_way (play_of (state_of P.meaning self.old).turn) who quiet.regions }
        requires old { arc_value quiet.old ≡ (state_of P.meaning self.old).version }
        requires refused { ComesTo P.meaning self.old.script (state_of P.meaning self.old) (play_of (state_of P.meaning self.old).turn) (Err refusal) }
        ensures { self.new ≡ with_event self.old who (play_of (state_of P.meaning self.old).turn) (resumed refusal) }
    {
        let Quiet {
            old,
            regions,
            change: _,
        } = quiet;
        let play = self.changing();
        let version = self.stock.loaded.version();
        let seen = Snapshot::of(&refusal);
        let nothing = mem::replace(&mut self.stock.regions, regions);
        self.stock.nothing = Some(nothing);
        self.stock.for_change = Some(old);
        self.ongoing = Ongoing::Free;
        self.status[play as usize] = Status::Done;
        self.stock.progress.mark(play);
        self.events.push_reserved(Event {
            who,
            play,
            what: What::Resumed(seen),
        });
        self.stock.entries.push_reserved(Entry {
            version,
            play,
            answer: Answer::Refused(refusal),
        });
    }

    /// Ends the change under way: the next version is loaded.
    pub fn finish_change(&mut self, who: u32, done: Migrated<P>)
        requires under { (state_of P.meaning self.old).turn ≡ under_way (play_of (state_of P.meaning self.old).turn) who done.from.value }
        requires next { ComesTo P.meaning self.old.script (state_of P.meaning self.old) (play_of (state_of P.meaning self.old).turn) (Ok (arc_value done.next.loaded, done.next.regions)) }
        requires supplied { IsSupplied P.meaning (λ t k. IsKit P.meaning P.ready (arc_value done.next.loaded) t (arc_value k.shared) k.work k.carrier) (arc_value done.next.loaded) (arc_value done.next.for_change) done.next.kits.items }
        ensures { self.new ≡ with_event self.old who (play_of (state_of P.meaning self.old).turn) (changed (arc_value done.next.loaded) done.next.regions) }
    {
        let Migrated { next, from: _ } = done;
        let Next {
            loaded,
            for_change,
            regions,
            kits,
        } = next;
        let play = self.changing();
        let version = self.stock.loaded.version();
        let number = loaded.version();
        let seen = Snapshot::of(&*loaded);
        let contents = Snapshot::of(&regions);
        let none = Vec::new(self.stock.alloc);
        let mut since = mem::replace(&mut self.stock.since, none);
        renew(
            &mut since,
            &self.stock.progress,
            &*self.stock.loaded,
            &*loaded,
            number,
        );
        self.stock.since = since;
        release(&mut self.stock.held);
        let nothing = mem::replace(&mut self.stock.regions, regions);
        self.stock.nothing = Some(nothing);
        self.stock.loaded = loaded;
        self.stock.for_change = Some(for_change);
        self.stock.kits = kits;
        self.ongoing = Ongoing::Free;
        self.status[play as usize] = Status::Done;
        self.stock.progress.mark(play);
        self.events.push_reserved(Event {
            who,
            play,
            what: What::Changed(seen, contents),
        });
        self.stock.entries.push_reserved(Entry {
            version,
            play,
            answer: Answer::Loaded(number),
        });
    }

    fn deny(&mut self, who: u32, play: u32, answer: Answer)
        requires { Follows P.meaning self.old.script (state_of P.meaning self.old) who play (denied answer) }
        ensures { self.new ≡ with_event self.old who play (denied answer) }
    {
        let version = self.stock.loaded.version();
        let seen = Snapshot::of(&answer);
        self.ongoing = Ongoing::Free;
        self.status[play as usize] = Status::Done;
        self.stock.progress.mark(play);
        self.events.push_reserved(Event {
            who,
            play,
            what: What::Denied(seen),
        });
        self.stock.entries.push_reserved(Entry {
            version,
            play,
            answer,
        });
    }

    /// Ends the change that is wanted, whose text was denied by the version of this number.
    pub fn refuse(
        &mut self,
        who: u32,
        wish: Wish,
        against: u32,
        why: Denied,
    ) -> Result<(), OlderWish>
        requires wish { (state_of P.meaning self.old).turn ≡ wanted_by wish.play who }
        requires why { (against ≡ P.meaning.number (state_of P.meaning self.old).version) → Denies P.meaning self.old.script (state_of P.meaning self.old) wish.play (denial_of why) }
        ensures ok { IfOk result (λ _. (against ≡ P.meaning.number (state_of P.meaning self.old).version) × (self.new ≡ with_event self.old who wish.play (denied (denial_of why)))) }
        ensures err { IfErr result (λ e. (self.new ≡ self.old) × (against ≡ e.loaded → ⊥) × (e.loaded ≡ P.meaning.number (state_of P.meaning self.old).version) × (e.wish ≡ wish) × (e.why ≡ why)) }
    {
        let loaded = self.stock.loaded.version();
        if against != loaded {
            return Err(OlderWish { loaded, wish, why });
        }
        let Wish { play } = wish;
        self.deny(who, play, answer_in(why));
        Ok(())
    }
}
