//! What the words of the table, its slot and the views of the passes keep true, and what each step tells.

use atomic_table::{Join, Play, Seat, Split, Table, TableRule};
use plant_core::Core;
use plant_rules::Controlled;
use std::alloc::Global;
use std::marker::{Model, PhantomData};
use std::snapshot::Snapshot;

/// What a pass knows. No value of it is made.
pub struct View<P: Controlled> {
    of: PhantomData<P>,
    start: Core<P>,
}

impl<P: Controlled> Model for View<P> {
    ghost use Rattle.plant_cell.specs.Known.{Known, newcomer};

    ghost Value = { Known P };

    ghost view = { λ v. newcomer v.start 1 };
}

/// The rule of the table.
pub struct Law<P: Controlled> {
    of: PhantomData<P>,
}

/// The core that the plant was made with, and how many numbers it may make.
pub type Origin<P> = (Snapshot<Core<P>>, u32);

impl<P: Controlled> TableRule<Option<Core<P>>, View<P>, Origin<P>> for Law<P> {
    ghost use Rattle.plant_cell.specs.Known.{newcomer};
    ghost use Rattle.plant_cell.specs.Rule.{Kept};

    ghost holds = { λ key s. Kept key.0.value key.1 s };

    ghost first = { λ key. newcomer key.0.value key.1 };
}

/// The turn is taken where nobody has it.
pub struct Take;

impl<P: Controlled> Play<Option<Core<P>>, View<P>> for Take {
    ghost use Rattle.plant_cell.specs.Rule.{Takes};

    ghost then = { Takes };
}

/// The length of the history is noted.
pub struct Count;

impl<P: Controlled> Play<Option<Core<P>>, View<P>> for Count {
    ghost use Rattle.plant_cell.specs.Rule.{Counts};

    ghost then = { Counts };
}

/// The turn is given back.
pub struct Release;

impl<P: Controlled> Play<Option<Core<P>>, View<P>> for Release {
    ghost use Rattle.plant_cell.specs.Rule.{Releases};

    ghost then = { Releases };
}

/// How many numbers are made is read.
pub struct Look;

impl<P: Controlled> Play<Option<Core<P>>, View<P>> for Look {
    ghost use Rattle.plant_cell.specs.Rule.{Looks};

    ghost then = { Looks };
}

/// A number is made where so many are made as were read.
pub struct Draw;

impl<P: Controlled> Play<Option<Core<P>>, View<P>> for Draw {
    ghost use Rattle.plant_cell.specs.Rule.{Draws};

    ghost then = { Draws };
}

/// A pass hands its last number to a new one.
pub struct HandOn;

impl<P: Controlled> Split<View<P>> for HandOn {
    ghost use Rattle.plant_cell.specs.Known.{left_with, handed_on};

    ghost left = { left_with };

    ghost right = { handed_on };
}

/// A pass takes over all of another one.
pub struct TakeOver;

impl<P: Controlled> Join<View<P>> for TakeOver {
    ghost use Rattle.plant_cell.specs.Known.{joined, spent_pass};

    ghost both = { joined };

    ghost spent = { spent_pass };
}

/// Three words, which are the turn, the length of the history and the count of numbers, and one slot, which has the core.
pub type Board<P> = Table<Option<Core<P>>, View<P>, Origin<P>, Law<P>, Global>;

pub type Place<P> = Seat<Option<Core<P>>, View<P>>;
