//! Code with its tables. Where two entries of a table speak of the same thing, the first one counts.

use crate::op::{Kind, Op};
use plc_text::{Items, Text};

/// A routine.
pub struct RoutineCode {
    pub name: Text,
    /// The line of its heading.
    pub line: u32,
    /// The kinds of its argument words, the first one first.
    pub args: Items<Kind>,
    /// The kinds of the words that it returns, the top one last.
    pub rets: Items<Kind>,
    pub ops: Items<Op>,
    /// The line of each instruction's statement.
    pub lines: Items<u32>,
    /// The operand kinds that each instruction finds, the top one last. None where no instruction leads to it.
    pub kinds: Items<Option<Items<Kind>>>,
    /// How many bytes its locals have.
    pub locals: u32,
    /// The most operand kinds of a list.
    pub room: u32,
}

impl Drop for RoutineCode {
    fn drop(self) {
        let RoutineCode {
            name,
            line: _,
            args,
            rets,
            ops,
            lines,
            kinds,
            locals: _,
            room: _,
        } = self;
        drop(name);
        drop(args);
        drop(rets);
        drop(ops);
        drop(lines);
        drop(kinds);
    }
}

/// The routine by which a class implements a method of an interface.
#[derive(Clone, Copy)]
pub struct InterfaceTarget {
    pub class: u32,
    pub interface: u32,
    pub method: u32,
    pub routine: u32,
}

/// A class, and a class or interface that it conforms to. A class has its own number as a target, an interface the
/// number of classes and its own.
#[derive(Clone, Copy)]
pub struct Conformance {
    pub class: u32,
    pub target: u32,
}

/// The body of a program instance.
#[derive(Clone, Copy)]
pub struct Body {
    pub region: u32,
    pub routine: u32,
}

/// The routine of a method with a body.
#[derive(Clone, Copy)]
pub struct MethodRoutine {
    pub class: u32,
    pub method: u32,
    pub routine: u32,
}

/// The code of a program.
pub struct MachineCode {
    pub routines: Items<RoutineCode>,
    /// For each class the routine of each slot, None for an abstract method.
    pub slots: Items<Items<Option<u32>>>,
    pub targets: Items<InterfaceTarget>,
    pub conforms: Items<Conformance>,
    pub bodies: Items<Body>,
    pub methods: Items<MethodRoutine>,
}

// By hand, so that a drop is one call: a derived one is written out wherever a `?` may need it, and a proof goes over each part.
impl Drop for MachineCode {
    fn drop(self) {
        let MachineCode {
            routines,
            slots,
            targets,
            conforms,
            bodies,
            methods,
        } = self;
        drop(routines);
        drop(slots);
        drop(targets);
        drop(conforms);
        drop(bodies);
        drop(methods);
    }
}
