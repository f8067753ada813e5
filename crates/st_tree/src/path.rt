//! Ways from a region of the store to a value in it.

ghost use Rattle.std.specs.Prelude.{◌≡◌, [], ◌∷◌, ◌++◌, length, IfOk, OnOk, OnErr};

use plc_text::NoMemory;
use smallvec::SmallVec;
use std::alloc::Global;
use std::marker::Model;

/// A step from a value to a part of it.
#[derive(Clone, Copy, Debug, PartialEq, Eq)]
pub enum Step {
    /// A field, or a variable of an instance, those of its bases first.
    Field(u32),
    /// The element of an array at an index.
    Element(i128),
}

impl Default for Step {
    /// What fills the room that a path does not use.
    fn default() -> Step {
        Step::Field(0)
    }
}

/// The steps of a path. Most paths are short and take no memory. Contracts see them as a list.
#[derive(Drop)]
pub struct Steps {
    steps: SmallVec<Step, 8>,
}

impl Model for Steps {
    ghost use Rattle.std.specs.Prelude.{List};
    ghost use Rattle.st_tree.specs.declared.path.Step.{Step};

    ghost Value = { List Step };

    ghost view = { λ s. s.steps.items };
}

impl Steps {
    pub fn new(alloc: Global) -> Steps
        ensures { result ≡ [] }
    {
        Steps {
            steps: SmallVec::new(alloc),
        }
    }

    pub fn as_slice(&self) -> &[Step]
        ensures { result.now ≡ self.now }
    {
        self.steps.as_slice()
    }

    /// One step further.
    pub fn push(&mut self, step: Step) -> Result<(), NoMemory>
        ensures ok { OnOk result (self.new ≡ self.old ++ step ∷ []) }
        ensures err { OnErr result (self.new ≡ self.old) }
    {
        self.steps.push(step)?;
        Ok(())
    }

    /// The same steps again.
    pub fn copy(&self, alloc: Global) -> Result<Steps, NoMemory>
        ensures { IfOk result (λ copy. copy ≡ self.now) }
    {
        let steps = SmallVec::from_slice(alloc, self.as_slice())?;
        Ok(Steps { steps })
    }
}

/// A value in the store: its region and the way to it.
#[derive(Drop)]
pub struct Path {
    pub region: u32,
    pub steps: Steps,
}
