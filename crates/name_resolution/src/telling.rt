//! One more is told of a name: its type, and of a constant its value.

ghost use Rattle.std.specs.Prelude.{◌≡◌};
ghost use Rattle.st_rules.specs.Telling.{changed_at, type_told, variable_told, global_told, member_told};

use plc_text::Series;
use st_rules::{DeclaredClass, DeclaredGlobal, DeclaredType, DeclaredVariable};
use st_tree::Target;
use st_types::StType;

/// The entry at the place has this type.
pub fn tell_entry(types: &mut Series<DeclaredType>, place: u32, kind: StType)
    ensures { types.new ≡ changed_at (type_told kind) place types.old }
{
    match types.get_mut(place as usize) {
        Some(entry) => entry.kind = Some(kind),
        None => {}
    }
}

fn tell_variable(v: &mut DeclaredVariable, kind: StType, target: Target)
    ensures { v.new ≡ variable_told kind target v.old }
{
    v.kind = Some(kind);
    v.target = target;
}

fn tell_one(entry: &mut DeclaredGlobal, kind: StType, target: Target)
    ensures { entry.new ≡ global_told kind target entry.old }
{
    match entry {
        DeclaredGlobal::Variable(v) => tell_variable(v, kind, target),
        DeclaredGlobal::Function(_, _) => {}
    }
}

/// The global at the place has this type and means this.
pub fn tell_shared(globals: &mut Series<DeclaredGlobal>, place: u32, kind: StType, target: Target)
    ensures { globals.new ≡ changed_at (global_told kind target) place globals.old }
{
    match globals.get_mut(place as usize) {
        Some(entry) => tell_one(entry, kind, target),
        None => {}
    }
}

/// The local at the place has this type and means this.
pub fn tell_local(locals: &mut Series<DeclaredVariable>, place: usize, kind: StType, target: Target)
    ensures { locals.new ≡ changed_at (variable_told kind target) place locals.old }
{
    match locals.get_mut(place) {
        Some(v) => tell_variable(v, kind, target),
        None => {}
    }
}

fn tell_own(class: &mut DeclaredClass, place: u32, kind: StType, target: Target)
    ensures { class.new ≡ member_told place kind target class.old }
{
    match class.variables.get_mut(place as usize) {
        Some(v) => tell_variable(v, kind, target),
        None => {}
    }
}

/// The variable at the place in the class of the number has this type and means this.
pub fn tell_in_class(
    classes: &mut Series<DeclaredClass>,
    class: u32,
    place: u32,
    kind: StType,
    target: Target,
)
    ensures { classes.new ≡ changed_at (member_told place kind target) class classes.old }
{
    match classes.get_mut(class as usize) {
        Some(own) => tell_own(own, place, kind, target),
        None => {}
    }
}
