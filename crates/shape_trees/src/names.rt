//! Names of classes, and numbers of 64 bits.

ghost use Rattle.std.specs.Prelude.{◌≡◌, IfSome, option_map};
ghost use Rattle.st_values.specs.Program.{class_at};
ghost use Rattle.st_values.specs.Shape.{extent};
ghost use Rattle.st_values.specs.View.{program_of};

use plc_text::Text;
use st_tree::Program;

/// The name of a class or a program, by its number.
#[tactic(auto, using(crate::proofs::ClassLaws::class_named, crate::proofs::ClassLaws::program_named))]
pub fn class_name(program: &Program, class: u32) -> Option<&Text>
    ensures { option_map (λ t. t.now) result ≡ option_map (λ k. k.name) (class_at (program_of program.now) class) }
{
    let class = class as usize;
    let count = program.classes.len();
    if class < count {
        match program.classes.get(class) {
            Some(decl) => Some(&decl.name.text),
            None => None,
        }
    } else {
        match program.programs.get(class - count) {
            Some(decl) => Some(&decl.name.text),
            None => None,
        }
    }
}

/// How many indices there are between two bounds, where a list can have so many.
pub fn count(low: &i128, high: &i128) -> Option<usize>
    ensures { IfSome result (λ n. n ≡ extent low.now high.now) }
{
    if *high < *low {
        return Some(0);
    }
    let last = usize::try_from(high.checked_sub(*low)?).ok()?;
    last.checked_add(1)
}
