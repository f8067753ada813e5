//! Which declaration a routine is, and its text.

ghost use Rattle.std.specs.Prelude.{◌≡◌, None, Some, MatchOption, slice_get};
ghost use Rattle.st_tree.specs.declared.program.Program.{Program as CheckedProgram};
ghost use Rattle.st_tree.specs.Statement.{statements_of};
ghost use Rattle.program_tables.specs.Routine as routine;
ghost use Rattle.program_tables.specs.Routine.{routine_of};
ghost use Rattle.program_tables.specs.Private.Text as text;

use st_tree::{ClassDecl, FunctionDecl, Member, Method, Note, Program, Stmt};

/// What may be entered, by its declaration. Numbers count from 0 in the order of the text, function blocks among the classes, and
/// programs behind all classes.
#[derive(Clone, Copy, Debug, PartialEq, Eq)]
pub enum RoutineId {
    Function(u32),
    /// A method, by the class that declares it and its place among the members of that class.
    Method(u32, u32),
    /// The body of a function block or a program.
    Body(u32),
}

impl RoutineId {
    /// The class whose text the routine is; a function is of none.
    #[tactic(auto, using(crate::proofs::RoutineLaws::class_of_function, crate::proofs::RoutineLaws::class_of_method, crate::proofs::RoutineLaws::class_of_body))]
    pub fn class_of(self) -> Option<u32>
        ensures { (p : CheckedProgram) → result ≡ (routine_of p self).class }
    {
        match self {
            RoutineId::Function(_) => None,
            RoutineId::Method(class, _) => Some(class),
            RoutineId::Body(class) => Some(class),
        }
    }
}

fn members_at(classes: &[ClassDecl<Note>], class: u32) -> &[Member<Note>]
    ensures { result.now ≡ routine.members_of (slice_get classes.now class) }
{
    match classes.get(class as usize) {
        Some(class) => class.members.as_slice(),
        None => &[],
    }
}

fn method_among(members: &[Member<Note>], place: u32) -> Option<&Method<Note>>
    ensures { MatchOption result (routine.method_in (slice_get members.now place) ≡ None) (λ m. routine.method_in (slice_get members.now place) ≡ Some m.now) }
{
    match members.get(place as usize) {
        Some(member) => match member {
            Member::Method(method) => Some(method),
            Member::Section(_) => None,
        },
        None => None,
    }
}

/// The method at a place of a class, where a method stands there.
pub fn method_at(classes: &[ClassDecl<Note>], class: u32, place: u32) -> Option<&Method<Note>>
    ensures { MatchOption result (routine.method_at classes.now class place ≡ None) (λ m. routine.method_at classes.now class place ≡ Some m.now) }
{
    method_among(members_at(classes, class), place)
}

fn function_text(functions: &[FunctionDecl<Note>], number: u32) -> &[Stmt<Note>]
    ensures { result.now ≡ text.function_text (slice_get functions.now number) }
{
    match functions.get(number as usize) {
        Some(function) => function.body.as_slice(),
        None => &[],
    }
}

fn method_text(classes: &[ClassDecl<Note>], class: u32, place: u32) -> &[Stmt<Note>]
    ensures { result.now ≡ text.method_text (routine.method_at classes.now class place) }
{
    match method_at(classes, class, place) {
        Some(method) => method.body.as_slice(),
        None => &[],
    }
}

fn body_text(program: &Program, class: u32) -> &[Stmt<Note>]
    ensures { result.now ≡ text.body_text program.now class }
{
    let classes = program.classes.as_slice();
    let class = class as usize;
    if class < classes.len() {
        return classes[class].body.as_slice();
    }
    match program.programs.get(class - classes.len()) {
        Some(decl) => decl.body.as_slice(),
        None => &[],
    }
}

/// The statements of a routine; none where there is no such routine.
#[tactic(auto, using(crate::proofs::RoutineLaws::text_of_function, crate::proofs::RoutineLaws::text_of_method, crate::proofs::RoutineLaws::text_of_body))]
pub fn statements(program: &Program, id: RoutineId) -> &[Stmt<Note>]
    ensures { statements_of result.now ≡ (routine_of program.now id).body }
{
    match id {
        RoutineId::Function(number) => function_text(program.functions.as_slice(), number),
        RoutineId::Method(class, place) => method_text(program.classes.as_slice(), class, place),
        RoutineId::Body(class) => body_text(program, class),
    }
}

fn function_line(functions: &[FunctionDecl<Note>], number: u32) -> u32
    ensures { result ≡ text.function_line (slice_get functions.now number) }
{
    match functions.get(number as usize) {
        Some(function) => function.line,
        None => 0,
    }
}

fn method_line(classes: &[ClassDecl<Note>], class: u32, place: u32) -> u32
    ensures { result ≡ text.method_line (routine.method_at classes.now class place) }
{
    match method_at(classes, class, place) {
        Some(method) => method.line,
        None => 0,
    }
}

fn body_line(program: &Program, class: u32) -> u32
    ensures { result ≡ text.body_line program.now class }
{
    let classes = program.classes.as_slice();
    let class = class as usize;
    if class < classes.len() {
        return classes[class].line;
    }
    match program.programs.get(class - classes.len()) {
        Some(decl) => decl.line,
        None => 0,
    }
}

/// The line of the first word of a routine's declaration; 0 where there is no such routine.
#[tactic(auto, using(crate::proofs::RoutineLaws::line_of_function, crate::proofs::RoutineLaws::line_of_method, crate::proofs::RoutineLaws::line_of_body))]
pub fn line(program: &Program, id: RoutineId) -> u32
    ensures { result ≡ (routine_of program.now id).line }
{
    match id {
        RoutineId::Function(number) => function_line(program.functions.as_slice(), number),
        RoutineId::Method(class, place) => method_line(program.classes.as_slice(), class, place),
        RoutineId::Body(class) => body_line(program, class),
    }
}

fn function_name(functions: &[FunctionDecl<Note>], number: u32) -> &str
    ensures { result.now ≡ text.function_name (slice_get functions.now number) }
{
    match functions.get(number as usize) {
        Some(function) => function.name.text.as_str(),
        None => "",
    }
}

fn method_name(classes: &[ClassDecl<Note>], class: u32, place: u32) -> &str
    ensures { result.now ≡ text.method_name (routine.method_at classes.now class place) }
{
    match method_at(classes, class, place) {
        Some(method) => method.name.text.as_str(),
        None => "",
    }
}

fn body_name(program: &Program, class: u32) -> &str
    ensures { result.now ≡ text.body_name program.now class }
{
    let classes = program.classes.as_slice();
    let class = class as usize;
    if class < classes.len() {
        return classes[class].name.text.as_str();
    }
    match program.programs.get(class - classes.len()) {
        Some(decl) => decl.name.text.as_str(),
        None => "",
    }
}

/// The name of a routine, in upper case; empty where there is no such routine.
#[tactic(auto, using(crate::proofs::RoutineLaws::name_of_function, crate::proofs::RoutineLaws::name_of_method, crate::proofs::RoutineLaws::name_of_body))]
pub fn name(program: &Program, id: RoutineId) -> &str
    ensures { result.now ≡ (routine_of program.now id).name }
{
    match id {
        RoutineId::Function(number) => function_name(program.functions.as_slice(), number),
        RoutineId::Method(class, place) => method_name(program.classes.as_slice(), class, place),
        RoutineId::Body(class) => body_name(program, class),
    }
}
