//! The code of a routine's statements. The text is a source, and behind a line `@code` the tables by which it is made and those of the
//! machine, of which the last routine has the code. `code FREE function NUMBER`, `code FREE method CLASS PLACE` and `code FREE body CLASS` ask
//! for the code where the bytes of the locals from `FREE` on are free: up to which offset it uses them, and its listing.

use crate::tables::{CodeTables, tables_of};
use code_cells::{Cell, Emitted, emit_whole};
use codegen_body::{Destinations, emit_body};
use codegen_tables::Context;
use codegen_tops::effects_top;
use console_command::Checker;
use machine_tests::{numbers, small};
use plc_text::{NoMemory, Text, split_field};
use program_tables::{RoutineId, statements};
use reference_journal::give_back;
use st_tree::{Note, Program, Stmt};
use stack_code::{MachineCode, Op, RoutineCode, listing, validate};
use std::alloc::Global;

fn routine(words: &str) -> RoutineId {
    let (sort, words) = split_field(words);
    let [first, second, _, _] = numbers(words);
    match sort {
        "function" => RoutineId::Function(first),
        "method" => RoutineId::Method(first, second),
        _ => RoutineId::Body(first),
    }
}

/// Statements and the return behind them.
fn cells(
    alloc: Global,
    body: &[Stmt<Note>],
    c: &Context<'_>,
    free: u32,
) -> Result<Vec<Cell>, NoMemory> {
    let mut cells = Vec::new(alloc);
    cells.push(Cell::Does(Op::Ret(0), 1))?;
    let end = cells.len();
    let to = Destinations {
        exit: end,
        next: end,
        end,
    };
    emit_body(body, &mut cells, c, to, free)?;
    Ok(cells)
}

/// The routine with this code.
fn put(routine: &mut RoutineCode, code: Emitted) {
    routine.ops = code.ops;
    routine.lines = code.lines;
    routine.kinds = code.kinds;
    routine.room = code.room;
}

/// Adds the listing of the machine's code, where it is valid.
fn push_listing(alloc: Global, told: &mut Text, code: MachineCode) -> Result<(), NoMemory> {
    match validate(alloc, code)? {
        Some(valid) => {
            let text = listing(alloc, &valid)?;
            told.push_str(text.as_str())
        }
        None => told.push_str("not valid"),
    }
}

/// Adds the listing of the code, with the last routine as it was emitted.
fn push_code(
    alloc: Global,
    told: &mut Text,
    mut code: MachineCode,
    emitted: Emitted,
) -> Result<(), NoMemory> {
    if let Some(mut routine) = code.routines.pop() {
        put(&mut routine, emitted);
        code.routines.push(routine)?;
    }
    push_listing(alloc, told, code)
}

fn tell_body(
    alloc: Global,
    told: &mut Text,
    body: &[Stmt<Note>],
    c: &Context<'_>,
    free: u32,
    text: &str,
) -> Result<(), NoMemory> {
    let top = effects_top(body, c, free)?;
    told.push_decimal(u64::from(top))?;
    told.push_str("\n")?;
    let made = cells(alloc, body, c, free)?;
    let emitted = emit_whole(alloc, made)?;
    let code = machine_tests::machine_code(alloc, text, "")?;
    push_code(alloc, told, code, emitted)
}

fn tell_program(
    alloc: Global,
    told: &mut Text,
    program: &Program,
    text: &str,
    words: &str,
) -> Result<(), NoMemory> {
    let (free, id) = split_field(words);
    let made = tables_of(alloc, text)?;
    let CodeTables {
        sizes,
        calls,
        class,
        locals,
    } = &made;
    let c = Context {
        sizes,
        calls,
        class: *class,
        locals: locals.as_slice(),
    };
    let body = statements(program, routine(id));
    tell_body(alloc, told, body, &c, small(free), text)
}

/// Adds the code that a question asks for. `J` judges the source.
pub fn tell<J: Checker>(
    alloc: Global,
    told: &mut Text,
    text: &str,
    words: &str,
) -> Result<(), NoMemory> {
    let (source, text) = match text.split_once("@code\n") {
        Some(parts) => parts,
        None => (text, ""),
    };
    let source = Text::copy(alloc, source)?;
    match J::check(alloc, &source) {
        Ok(program) => {
            let answer = tell_program(alloc, told, &program, text, words);
            give_back(program);
            answer
        }
        Err(_) => told.push_str("refused"),
    }
}
