//! A number for each routine. Nothing is said of them here: what is found by them is checked.

use plc_text::NoMemory;
use program_tables::RoutineId;
use st_tree::Program;
use std::alloc::Global;

/// The numbers of the routines of a program: functions, the bodies of classes and programs, and the members of each class.
#[derive(Drop)]
pub struct Slots {
    functions: usize,
    /// The number of the first member of each class.
    members: Vec<usize>,
    /// How many numbers there are.
    pub count: usize,
}

fn sum(a: usize, b: usize) -> Result<usize, NoMemory> {
    match a.checked_add(b) {
        Some(sum) => Ok(sum),
        None => Err(NoMemory),
    }
}

impl Slots {
    pub fn build(alloc: Global, program: &Program) -> Result<Slots, NoMemory> {
        let functions = program.functions.len();
        let classes = sum(functions, program.classes.len())?;
        let mut count = sum(classes, program.programs.len())?;
        let mut members = Vec::new(alloc);
        for class in program.classes.as_slice() {
            members.push(count)?;
            count = sum(count, class.members.len())?;
        }
        Ok(Slots {
            functions,
            members,
            count,
        })
    }

    /// The number of a routine, if it has one.
    pub fn slot(&self, id: RoutineId) -> Option<usize> {
        match id {
            RoutineId::Function(number) => Some(number as usize),
            RoutineId::Body(class) => self.functions.checked_add(class as usize),
            RoutineId::Method(class, place) => match self.members.get(class as usize) {
                Some(first) => first.checked_add(place as usize),
                None => None,
            },
        }
    }
}
