//! Routines in the order in which they are found.

ghost use Rattle.std.specs.Prelude.{◌≡◌, [], true, slice_get, IfOk, OnOk};
ghost use Rattle.footprints.specs.reached_routines.Private.Adds.{AddsOne, Stands};

use crate::reached_routines::slots::Slots;
use plc_text::NoMemory;
use program_tables::RoutineId;
use st_tree::Program;
use std::alloc::Global;

/// The routines that were found, each once.
#[derive(Drop)]
pub struct Found {
    pub ids: Vec<RoutineId>,
    slots: Slots,
    /// Of each slot the place of its routine among those that were found. A place is not believed before it is looked up.
    places: Vec<usize>,
}

fn is_same(id: RoutineId, other: RoutineId) -> bool
    ensures { result ≡ true → id ≡ other }
{
    match id {
        RoutineId::Function(number) => match other {
            RoutineId::Function(k) => number == k,
            RoutineId::Method(_, _) => false,
            RoutineId::Body(_) => false,
        },
        RoutineId::Method(class, place) => match other {
            RoutineId::Function(_) => false,
            RoutineId::Method(c, m) => class == c && place == m,
            RoutineId::Body(_) => false,
        },
        RoutineId::Body(class) => match other {
            RoutineId::Function(_) => false,
            RoutineId::Method(_, _) => false,
            RoutineId::Body(c) => class == c,
        },
    }
}

fn stands_at(ids: &[RoutineId], place: usize, id: RoutineId) -> bool
    ensures { result ≡ true → Stands ids.now id }
{
    match ids.get(place) {
        Some(other) => is_same(*other, id),
        None => false,
    }
}

impl Found {
    /// None yet.
    pub fn new(alloc: Global, program: &Program) -> Result<Found, NoMemory>
        ensures { IfOk result (λ found. found.ids.items ≡ []) }
    {
        let slots = Slots::build(alloc, program)?;
        let places = vec![in alloc; 0; slots.count]?;
        Ok(Found {
            ids: Vec::new(alloc),
            slots,
            places,
        })
    }

    /// Where the routine stands, if it was found.
    fn place(&self, id: RoutineId) -> usize {
        match self.slots.slot(id) {
            Some(slot) => match self.places.get(slot) {
                Some(place) => *place,
                None => 0,
            },
            None => 0,
        }
    }

    fn note_place(&mut self, id: RoutineId)
        ensures { self.new.ids.items ≡ self.old.ids.items }
    {
        if let Some(slot) = self.slots.slot(id) {
            if slot < self.places.len() {
                self.places[slot] = self.ids.len();
            }
        }
    }

    /// Adds a routine, if it does not stand there.
    pub fn add(&mut self, id: RoutineId) -> Result<(), NoMemory>
        ensures { OnOk result (AddsOne id self.old.ids.items self.new.ids.items) }
    {
        if stands_at(self.ids.as_slice(), self.place(id), id) {
            return Ok(());
        }
        self.note_place(id);
        self.ids.push(id)?;
        Ok(())
    }

    /// The routine at a place.
    pub fn at(&self, place: u32) -> Option<RoutineId>
        ensures { result ≡ slice_get self.now.ids.items place }
    {
        match self.ids.get(place as usize) {
            Some(id) => Some(*id),
            None => None,
        }
    }
}
