//! Lists with names: what each name means, and what it breaks by itself.

ghost use Rattle.std.specs.Prelude.{◌≡◌, ◌∷◌, [], ◌++◌, List, ℕ, Some, IfOk};
ghost use Rattle.st_types.specs.declared.st_type.StType.TheVariants as kinds;
ghost use Rattle.st_rules.specs.Expressions as expressions;
ghost use Rattle.st_rules.specs.Faults.{least};
ghost use Rattle.st_unit_rules.specs.Initials as initials;
ghost use Rattle.check_names.specs.name_spaces.Held.{Holds};
ghost use Rattle.check_initial_values.specs.Fields.{meant};
ghost use Rattle.check_initial_values.specs.Lent.{lent};
ghost use Rattle.check_initial_values.specs.Private.Names.{name_faults};

use check_names::name_spaces::HeldNames;
use check_places::note;
use name_resolution::Scope;
use plc_text::{Code, NoMemory, Text};
use st_rules::{DeclaredField, DeclaredVariable, earlier, when};
use st_tree::{FieldInit, Note, Target};
use st_types::StType;
use std::alloc::Global;

/// What a name in a list means.
#[derive(Clone, Copy)]
pub enum Given<'a> {
    /// The type before the list cannot be told, or has no fields.
    Untold,
    NotFound,
    /// With its number.
    Field(u32, &'a DeclaredField),
    /// With the class that declares it.
    Member(u32, &'a DeclaredVariable),
}

fn has_no_fields(kind: &StType) -> bool
    ensures { result ≡ initials.has_no_fields kind.now }
{
    match kind {
        StType::Structure(_) => false,
        StType::Instance(_) => false,
        StType::Elementary(_) => true,
        StType::Enumeration(_) => true,
        StType::Array(_, _, _) => true,
        StType::Reference(_) => true,
        StType::Interface(_) => true,
    }
}

/// A list with names for what has no fields, at this line.
pub fn no_fields_fault(line: u32, kind: Option<&StType>) -> Option<(Code, u32)>
    ensures { result ≡ least (initials.list_of_no_fields line (lent kind.entry)) }
{
    match kind {
        Some(kind) => when(has_no_fields(kind), Code::E07, line),
        None => None,
    }
}

fn field_given<'a>(s: &Scope<'a>, entry: u32, name: &Text) -> Given<'a>
    ensures { meant result ≡ initials.given_by s.now (Some (kinds.Structure entry)) name.now }
{
    match s.field_named(entry, name) {
        Some((k, field)) => Given::Field(k, field),
        None => Given::NotFound,
    }
}

fn member_given<'a>(s: &Scope<'a>, class: u32, name: &Text) -> Given<'a>
    ensures { meant result ≡ initials.given_by s.now (Some (kinds.Instance class)) name.now }
{
    match s.instance_variable(class, name) {
        Some((d, variable)) => Given::Member(d, variable),
        None => Given::NotFound,
    }
}

fn given_of<'a>(s: &Scope<'a>, kind: &StType, name: &Text) -> Given<'a>
    ensures { meant result ≡ initials.given_by s.now (Some kind.now) name.now }
{
    match kind {
        StType::Structure(n) => field_given(s, *n, name),
        StType::Instance(c) => member_given(s, *c, name),
        StType::Elementary(_) => Given::Untold,
        StType::Enumeration(_) => Given::Untold,
        StType::Array(_, _, _) => Given::Untold,
        StType::Reference(_) => Given::Untold,
        StType::Interface(_) => Given::Untold,
    }
}

/// A field of a structure, or a variable of an instance.
pub fn given_by<'a>(s: &Scope<'a>, kind: Option<&StType>, name: &Text) -> Given<'a>
    ensures { meant result ≡ initials.given_by s.now (lent kind.entry) name.now }
{
    match kind {
        Some(kind) => given_of(s, kind, name),
        None => Given::Untold,
    }
}

/// The type of what the name means, where it can be told.
pub fn given_type<'a>(g: Given<'a>) -> Option<&'a StType>
    ensures { lent result ≡ initials.given_type (meant g.entry) }
{
    match g {
        Given::Field(_, field) => field.kind.as_ref(),
        Given::Member(_, variable) => variable.kind.as_ref(),
        Given::Untold => None,
        Given::NotFound => None,
    }
}

fn given_target(g: Given<'_>) -> Target
    ensures { result ≡ initials.given_target (meant g.entry) }
{
    match g {
        Given::Field(k, _) => Target::Field(k),
        Given::Member(_, variable) => variable.target,
        Given::Untold => Target::Nothing,
        Given::NotFound => Target::Nothing,
    }
}

/// The same type again, where there is one.
pub fn copied(alloc: Global, kind: Option<&StType>) -> Result<Option<StType>, NoMemory>
    ensures { IfOk result (λ t. t ≡ lent kind.entry) }
{
    match kind {
        Some(kind) => {
            let copy = kind.copy(alloc)?;
            Ok(Some(copy))
        }
        None => Ok(None),
    }
}

/// A name in a list, and the note that says what it means.
#[derive(Drop)]
pub struct NotedName {
    pub note: Note,
    pub name: Text,
}

/// A name at this line that means this.
pub fn noted_name(
    alloc: Global,
    line: u32,
    name: &Text,
    g: Given<'_>,
) -> Result<NotedName, NoMemory>
    ensures note { IfOk result (λ n. n.note ≡ expressions.note line (initials.given_type (meant g.entry)) (initials.given_target (meant g.entry))) }
    ensures name { IfOk result (λ n. n.name ≡ name.now) }
{
    let kind = copied(alloc, given_type(g))?;
    let name = Text::copy(alloc, name.as_str())?;
    Ok(NotedName {
        note: note(line, kind, given_target(g)),
        name,
    })
}

fn is_not_found(g: Given<'_>) -> bool
    ensures { result ≡ initials.is_not_found (meant g.entry) }
{
    match g {
        Given::NotFound => true,
        Given::Field(_, _) => false,
        Given::Member(_, _) => false,
        Given::Untold => false,
    }
}

fn is_out_of_access(s: &Scope<'_>, g: Given<'_>) -> bool
    ensures { result ≡ initials.is_out_of_access s.now (meant g.entry) }
{
    match g {
        Given::Member(class, variable) => !s.may_use(variable.access, class),
        Given::Field(_, _) => false,
        Given::Untold => false,
        Given::NotFound => false,
    }
}

/// What a name in a list breaks by itself, where these names stand before it, and is one of them then.
pub fn name_fault(
    alloc: Global,
    s: &Scope<'_>,
    kind: Option<&StType>,
    field: &FieldInit<u32>,
    before: &mut HeldNames,
) -> Result<Option<(Code, u32)>, NoMemory>
    ensures found { IfOk result (λ f. (names : List (List ℕ)) → Holds before.old names → f ≡ least (name_faults s.now (lent kind.entry) field.now.note names field.now.name)) }
    ensures held { IfOk result (λ f. (names : List (List ℕ)) → Holds before.old names → Holds before.new (names ++ field.now.name ∷ [])) }
{
    let line = field.note;
    let g = given_by(s, kind, &field.name);
    let twice = before.hold(alloc, &field.name)?;
    let not_found = when(is_not_found(g), Code::E05, line);
    let again = when(twice, Code::E07, line);
    let out_of_access = when(is_out_of_access(s, g), Code::E10, line);
    Ok(earlier(earlier(not_found, again), out_of_access))
}
