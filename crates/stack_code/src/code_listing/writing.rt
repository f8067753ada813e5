//! How code is written as text.

ghost use Rattle.std.specs.Prelude.{◌≡◌, ◌++◌, ◌∷◌, [], decimal, IfOk, OnOk};
ghost use Rattle.std.specs.Fmt.{signed_decimal};
ghost use Rattle.plc_text.specs.Lines.{ended, text_of};
ghost use Rattle.st_types.specs.Elem as kinds;
ghost use Rattle.stack_code.specs.code_listing.Writing as w;

use crate::valid_code::ValidCode;
use crate::{Op, RoutineCode};
use itoa::Buffer;
use plc_text::{NoMemory, Text};
use st_types::Elem;
use std::alloc::Global;

/// A line for each routine and each of its instructions: `routine`, its number and name; number, name and operands of
/// the instruction, numbered from 0. Words are separated by single spaces, and each line is ended by LF.
pub fn listing(alloc: Global, code: &ValidCode) -> Result<Text, NoMemory>
    ensures { IfOk result (λ text. text ≡ w.listing_of code.now) }
{
    let mut text = Text::new(alloc);
    push_routines(&mut text, code.code().routines.as_slice())?;
    Ok(text)
}

fn push_routines(text: &mut Text, routines: &[RoutineCode]) -> Result<(), NoMemory>
    ensures { OnOk result (text.new ≡ text.old ++ text_of (w.routine_lines 0 routines.now)) }
{
    'numbers: for k in 0..routines.len() {
        push_routine(text, k, &routines[k])?;
    }
    Ok(())
}

fn push_routine(text: &mut Text, k: usize, routine: &RoutineCode) -> Result<(), NoMemory>
    ensures { OnOk result (text.new ≡ text.old ++ (ended (w.heading k routine.now) ++ text_of (w.op_lines 0 routine.now.ops))) }
{
    push_heading(text, k, routine)?;
    push_ops(text, routine.ops.as_slice())
}

fn push_heading(text: &mut Text, k: usize, routine: &RoutineCode) -> Result<(), NoMemory>
    ensures { OnOk result (text.new ≡ text.old ++ ended (w.heading k routine.now)) }
{
    text.push_str("routine ")?;
    text.push_decimal(k as u64)?;
    text.push_str(" ")?;
    text.push_str(routine.name.as_str())?;
    text.push_str("\n")
}

fn push_ops(text: &mut Text, ops: &[Op]) -> Result<(), NoMemory>
    ensures { OnOk result (text.new ≡ text.old ++ text_of (w.op_lines 0 ops.now)) }
{
    'numbers: for n in 0..ops.len() {
        push_op(text, n, ops[n])?;
    }
    Ok(())
}

fn push_op(text: &mut Text, n: usize, op: Op) -> Result<(), NoMemory>
    ensures { OnOk result (text.new ≡ text.old ++ ended (w.op_line n op)) }
{
    text.push_decimal(n as u64)?;
    push_word(text, name(op))?;
    push_operands(text, op)?;
    text.push_str("\n")
}

fn push_word(text: &mut Text, word: &str) -> Result<(), NoMemory>
    ensures { OnOk result (text.new ≡ text.old ++ w.spaced (word.now ∷ [])) }
{
    text.push_str(" ")?;
    text.push_str(word)
}

fn push_number(text: &mut Text, n: u32) -> Result<(), NoMemory>
    ensures { OnOk result (text.new ≡ text.old ++ w.spaced (decimal n ∷ [])) }
{
    text.push_str(" ")?;
    text.push_decimal(u64::from(n))
}

fn push_integer(text: &mut Text, n: i128) -> Result<(), NoMemory>
    ensures { OnOk result (text.new ≡ text.old ++ w.spaced (signed_decimal n ∷ [])) }
{
    push_word(text, Buffer::new().format(n))
}

fn push_kind(text: &mut Text, kind: Elem) -> Result<(), NoMemory>
    ensures { OnOk result (text.new ≡ text.old ++ w.spaced (kinds.name kind ∷ [])) }
{
    push_word(text, kind.name())
}

/// The name of an instruction.
fn name(op: Op) -> &'static str
    ensures { result.now ≡ w.name_of op }
{
    match op {
        Op::Push(_) => "PUSH",
        Op::Null => "NULL",
        Op::Drop => "DROP",
        Op::Dup => "DUP",
        Op::Local(_) => "LOCAL",
        Op::This(_) => "THIS",
        Op::Region(_, _) => "REGION",
        Op::Offset(_) => "OFFSET",
        Op::Index(_, _, _) => "INDEX",
        Op::Deref => "DEREF",
        Op::Load(_) => "LOAD",
        Op::Store(_) => "STORE",
        Op::LoadRef => "LOADREF",
        Op::StoreRef => "STOREREF",
        Op::Copy(_) => "COPY",
        Op::Add(_) => "ADD",
        Op::Sub(_) => "SUB",
        Op::Mul(_) => "MUL",
        Op::Div(_) => "DIV",
        Op::Mod(_) => "MOD",
        Op::Neg(_) => "NEG",
        Op::AddC(_) => "ADDC",
        Op::Eq => "EQ",
        Op::Ne => "NE",
        Op::Lt => "LT",
        Op::Le => "LE",
        Op::Gt => "GT",
        Op::Ge => "GE",
        Op::Same => "SAME",
        Op::And(_) => "AND",
        Op::Or(_) => "OR",
        Op::Xor(_) => "XOR",
        Op::Not(_) => "NOT",
        Op::Conv(_, _) => "CONV",
        Op::NoZero => "NOZERO",
        Op::Jump(_) => "JUMP",
        Op::JumpF(_) => "JUMPF",
        Op::Tick => "TICK",
        Op::Call(_, _) => "CALL",
        Op::CallM(_, _, _) => "CALLM",
        Op::CallI(_, _, _) => "CALLI",
        Op::Try(_) => "TRY",
        Op::Now => "NOW",
        Op::Ret(_) => "RET",
        Op::End => "END",
    }
}

/// The operands of an instruction, each behind a space.
fn push_operands(text: &mut Text, op: Op) -> Result<(), NoMemory>
    ensures { OnOk result (text.new ≡ text.old ++ w.spaced (w.operands_of op)) }
{
    match op {
        Op::Push(n) => push_integer(text, n),
        Op::Local(n) | Op::This(n) | Op::Offset(n) | Op::Copy(n) => push_number(text, n),
        Op::Jump(n) | Op::JumpF(n) | Op::Try(n) | Op::Ret(n) => push_number(text, n),
        Op::Region(a, b) | Op::Call(a, b) => {
            push_number(text, a)?;
            push_number(text, b)
        }
        Op::CallM(a, b, c) | Op::CallI(a, b, c) => {
            push_number(text, a)?;
            push_number(text, b)?;
            push_number(text, c)
        }
        Op::Index(low, high, size) => {
            push_integer(text, low)?;
            push_integer(text, high)?;
            push_number(text, size)
        }
        Op::Load(e) | Op::Store(e) | Op::Neg(e) | Op::Not(e) => push_kind(text, e),
        Op::Add(e) | Op::Sub(e) | Op::Mul(e) | Op::Div(e) | Op::Mod(e) => push_kind(text, e),
        Op::AddC(e) | Op::And(e) | Op::Or(e) | Op::Xor(e) => push_kind(text, e),
        Op::Conv(from, to) => {
            push_kind(text, from)?;
            push_kind(text, to)
        }
        Op::Null | Op::Drop | Op::Dup | Op::Deref | Op::LoadRef | Op::StoreRef => Ok(()),
        Op::Eq | Op::Ne | Op::Lt | Op::Le | Op::Gt | Op::Ge | Op::Same => Ok(()),
        Op::NoZero | Op::Tick | Op::Now | Op::End => Ok(()),
    }
}
