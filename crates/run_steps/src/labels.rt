//! Labels of CASE (IEC 61131-3:2013, 7.3.3.3.3).

ghost use Rattle.std.specs.Prelude.{◌≡◌, option_map};
ghost use Rattle.st_values.specs.Initial as initial;
ghost use Rattle.st_meaning.specs.Statement as words;

use st_tree::{Label, LabelEnd, Note, Target};

/// The number of a constant or an enumerator.
pub fn constant(target: &Target) -> i128
    ensures { result ≡ initial.constant target.now }
{
    match target {
        Target::Constant(z) => *z,
        Target::Enumerator(k) => i128::from(*k),
        _ => 0,
    }
}

fn end_note(end: &LabelEnd<Note>) -> &Note
    ensures { result.now ≡ words.end_note end.now }
{
    match end {
        LabelEnd::Int(a, _) => a,
        LabelEnd::Negative(a, _) => a,
        LabelEnd::Typed(a, _, _) => a,
        LabelEnd::Name(a, _) => a,
        LabelEnd::Enumerator(a, _, _, _) => a,
        LabelEnd::Field(a, _, _, _) => a,
    }
}

/// The number of an end of a label.
pub fn end_value(end: &LabelEnd<Note>) -> i128
    ensures { result ≡ words.end_value end.now }
{
    constant(&end_note(end).target)
}

fn holds(label: &Label<Note>, z: &i128) -> bool
    ensures { result ≡ words.up_to (words.end_value label.now.first) label.now.last z.now }
{
    let first = end_value(&label.first);
    match &label.last {
        None => first == *z,
        Some(last) => {
            let last = end_value(last);
            first <= *z && *z <= last
        }
    }
}

/// Whether one of the labels holds the value.
pub fn hold(labels: &[Label<Note>], z: &i128) -> bool
    ensures { result ≡ words.hold labels.now z.now }
{
    let mut left = labels;
    while let Some((label, behind)) = left.split_first() {
        if holds(label, z) {
            return true;
        }
        left = behind;
    }
    false
}
