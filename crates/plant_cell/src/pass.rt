//! A pass to a plant, and a turn.

ghost use Rattle.std.specs.Prelude.{◌≡◌, ◌<◌, ◌≤◌, length, vec_capacity};
ghost use Rattle.plant_cell.specs.Known.{first_of};

use crate::rule::View;
use atomic_table::Seat;
use plant_core::Core;
use plant_rules::Controlled;

/// Numbers with a seat at a table. It names no program, so that it crosses threads wherever what lies in the slot does. There is room for
/// all numbers of a plant.
#[derive(Drop)]
pub struct PassOver<S, V> {
    pub numbers: Vec<u32>,
    pub seat: Seat<S, V>,
    pub ghost room: { 64 ≤ vec_capacity numbers },
}

/// One caller's right to take turns.
pub type Pass<P> = PassOver<Option<Core<P>>, View<P>>;

impl<S, V> PassOver<S, V> {
    /// The pass's first number, which its events carry.
    pub fn number(&self) -> u32
        requires { 0 < length self.now.numbers.items }
        ensures { result ≡ first_of self.now.numbers.items }
    {
        self.numbers[0]
    }
}

/// The core, while a pass has it. It has no `Drop`, so it has to be given back.
pub struct Turn<P: Controlled> {
    pub core: Core<P>,
}

/// Why no pass was split off.
#[derive(Clone, Copy, Drop)]
pub enum SplitError {
    /// A number has to be made, and all are made: so many.
    Full { made: u32 },
    NoMemory,
}
