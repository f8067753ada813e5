//! Code of the machine as text. A line adds to a table: `conforms CLASS TARGET`, `target CLASS INTERFACE METHOD ROUTINE`, `body REGION
//! ROUTINE`, `method CLASS METHOD ROUTINE`, `slots ROUTINE ..` for the next class, with `-` for an abstract method, and `routine NAME
//! ARGUMENTS RESULTS LOCALS ROOM INSTRUCTIONS`. Kinds are a word, `N` for a number and `A` for an address, the top one last, `.` for none.
//! Instructions end with `;`, and each begins with the kinds that it finds, `-` where none leads to it. A routine of `@` has those that are
//! asked for. Its line is 7, that of its first instruction 100.

use plc_text::{Items, NoMemory, Text, number, split_field};
use st_types::Elem;
use stack_code::{
    Body, Conformance, InterfaceTarget, Kind, MachineCode, MethodRoutine, Op, RoutineCode,
};
use std::alloc::Global;

const KINDS: [Elem; 14] = [
    Elem::Bool,
    Elem::Sint,
    Elem::Int,
    Elem::Dint,
    Elem::Lint,
    Elem::Usint,
    Elem::Uint,
    Elem::Udint,
    Elem::Ulint,
    Elem::Byte,
    Elem::Word,
    Elem::Dword,
    Elem::Lword,
    Elem::Time,
];

const BARE: [(&str, Op); 17] = [
    ("NULL", Op::Null),
    ("DROP", Op::Drop),
    ("DUP", Op::Dup),
    ("DEREF", Op::Deref),
    ("LOADREF", Op::LoadRef),
    ("STOREREF", Op::StoreRef),
    ("EQ", Op::Eq),
    ("NE", Op::Ne),
    ("LT", Op::Lt),
    ("LE", Op::Le),
    ("GT", Op::Gt),
    ("GE", Op::Ge),
    ("SAME", Op::Same),
    ("NOZERO", Op::NoZero),
    ("TICK", Op::Tick),
    ("NOW", Op::Now),
    ("END", Op::End),
];

/// A number of 32 bits, 0 where the word is none.
pub fn small(word: &str) -> u32 {
    number(word).unwrap_or(0)
}

/// A number with or without a sign, 0 where the word is none.
fn signed(word: &str) -> i128 {
    word.parse().unwrap_or(0)
}

/// The first four numbers of a line, 0 where there are fewer.
pub fn numbers(words: &str) -> [u32; 4] {
    let (first, behind) = split_field(words);
    let (second, rest) = split_field(behind);
    let (third, fourth) = split_field(rest);
    [small(first), small(second), small(third), small(fourth)]
}

/// The kind of that name, BOOL where there is none.
pub fn elem(word: &str) -> Elem {
    for kind in &KINDS {
        if kind.name() == word {
            return *kind;
        }
    }
    Elem::Bool
}

/// An instruction without operands.
fn bare(name: &str) -> Op {
    for (known, op) in &BARE {
        if *known == name {
            return *op;
        }
    }
    Op::End
}

/// An instruction on numbers of 32 bits, or without operands.
fn with_numbers(name: &str, operands: &str) -> Op {
    let [a, b, c, _] = numbers(operands);
    match name {
        "LOCAL" => Op::Local(a),
        "THIS" => Op::This(a),
        "REGION" => Op::Region(a, b),
        "OFFSET" => Op::Offset(a),
        "COPY" => Op::Copy(a),
        "JUMP" => Op::Jump(a),
        "JUMPF" => Op::JumpF(a),
        "CALL" => Op::Call(a, b),
        "CALLM" => Op::CallM(a, b, c),
        "CALLI" => Op::CallI(a, b, c),
        "TRY" => Op::Try(a),
        "RET" => Op::Ret(a),
        _ => bare(name),
    }
}

/// An instruction on a kind.
fn with_kind(name: &str, e: Elem) -> Option<Op> {
    Some(match name {
        "LOAD" => Op::Load(e),
        "STORE" => Op::Store(e),
        "ADD" => Op::Add(e),
        "SUB" => Op::Sub(e),
        "MUL" => Op::Mul(e),
        "DIV" => Op::Div(e),
        "MOD" => Op::Mod(e),
        "NEG" => Op::Neg(e),
        "ADDC" => Op::AddC(e),
        "AND" => Op::And(e),
        "OR" => Op::Or(e),
        "XOR" => Op::Xor(e),
        "NOT" => Op::Not(e),
        _ => return None,
    })
}

/// The instruction of that name with these operands.
fn op(name: &str, operands: &str) -> Op {
    let (first, rest) = split_field(operands);
    let (second, third) = split_field(rest);
    match name {
        "PUSH" => Op::Push(signed(first)),
        "INDEX" => Op::Index(signed(first), signed(second), small(third)),
        "CONV" => Op::Conv(elem(first), elem(second)),
        _ => match with_kind(name, elem(first)) {
            Some(op) => op,
            None => with_numbers(name, operands),
        },
    }
}

fn kinds(alloc: Global, word: &str) -> Result<Items<Kind>, NoMemory> {
    let mut kinds = Items::new(alloc);
    for letter in word.as_bytes() {
        match *letter {
            b'N' => kinds.push(Kind::Num)?,
            b'A' => kinds.push(Kind::Addr)?,
            _ => {}
        }
    }
    Ok(kinds)
}

/// Puts an instruction to the routine, with its line and the kinds that it finds.
fn add_op(alloc: Global, made: &mut RoutineCode, cell: &str) -> Result<(), NoMemory> {
    let (found, instruction) = split_field(cell);
    let (name, operands) = split_field(instruction);
    let line = u32::try_from(made.lines.len()).unwrap_or(0);
    made.lines.push(line.saturating_add(100))?;
    made.ops.push(op(name, operands))?;
    let found = if found == "-" {
        None
    } else {
        Some(kinds(alloc, found)?)
    };
    made.kinds.push(found)?;
    Ok(())
}

/// A routine without instructions, and the words behind those that tell of it.
fn heading(alloc: Global, words: &str) -> Result<(RoutineCode, &str), NoMemory> {
    let (name, words) = split_field(words);
    let (args, words) = split_field(words);
    let (rets, words) = split_field(words);
    let (locals, words) = split_field(words);
    let (room, cells) = split_field(words);
    let name = Text::copy(alloc, name)?;
    let args = kinds(alloc, args)?;
    let rets = kinds(alloc, rets)?;
    let made = RoutineCode {
        name,
        line: 7,
        args,
        rets,
        ops: Items::new(alloc),
        lines: Items::new(alloc),
        kinds: Items::new(alloc),
        locals: small(locals),
        room: small(room),
    };
    Ok((made, cells))
}

fn routine(alloc: Global, words: &str, asked: &str) -> Result<RoutineCode, NoMemory> {
    let (mut made, own) = heading(alloc, words)?;
    let cells = if own == "@" { asked } else { own };
    if cells.is_empty() {
        return Ok(made);
    }
    for cell in cells.split(';') {
        add_op(alloc, &mut made, cell)?;
    }
    Ok(made)
}

fn slots(alloc: Global, words: &str) -> Result<Items<Option<u32>>, NoMemory> {
    let mut slots = Items::new(alloc);
    for word in words.split(' ') {
        slots.push(number(word))?;
    }
    Ok(slots)
}

/// Adds what a line says.
fn add(alloc: Global, made: &mut MachineCode, line: &str, asked: &str) -> Result<(), NoMemory> {
    let (table, words) = split_field(line);
    let [class, second, third, fourth] = numbers(words);
    match table {
        "routine" => made.routines.push(routine(alloc, words, asked)?)?,
        "slots" => made.slots.push(slots(alloc, words)?)?,
        "conforms" => made.conforms.push(Conformance {
            class,
            target: second,
        })?,
        "target" => made.targets.push(InterfaceTarget {
            class,
            interface: second,
            method: third,
            routine: fourth,
        })?,
        "body" => made.bodies.push(Body {
            region: class,
            routine: second,
        })?,
        "method" => made.methods.push(MethodRoutine {
            class,
            method: second,
            routine: third,
        })?,
        _ => {}
    }
    Ok(())
}

/// The code of a text, with the instructions that are asked for.
pub fn machine_code(alloc: Global, text: &str, asked: &str) -> Result<MachineCode, NoMemory> {
    let mut made = MachineCode {
        routines: Items::new(alloc),
        slots: Items::new(alloc),
        targets: Items::new(alloc),
        conforms: Items::new(alloc),
        bodies: Items::new(alloc),
        methods: Items::new(alloc),
    };
    for line in text.split('\n') {
        add(alloc, &mut made, line, asked)?;
    }
    Ok(made)
}
