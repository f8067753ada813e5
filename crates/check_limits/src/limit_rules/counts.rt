//! How many parameters and methods there are.

ghost use Rattle.std.specs.Prelude.{◌≡◌, length, filter, map};
ghost use Rattle.st_unit_rules.specs.declared_names.Variables as variables;
ghost use Rattle.st_unit_rules.specs.declaration_list.Written.{written_of};
ghost use Rattle.st_rules.specs.Faults.{least};
ghost use Rattle.st_unit_rules.specs.Limits as limits;

use plc_text::Code;
use st_rules::when;
use st_unit_rules::declaration_list::{WrittenName, is_parameter};

fn count_parameters(names: &[WrittenName<'_>]) -> usize
    ensures { result ≡ length (filter (λ w. variables.is_parameter_written (written_of w)) names.now) }
{
    let mut count: usize = 0;
    for name in names {
        if is_parameter(name) {
            count += 1;
        }
    }
    count
}

/// E16 at the line of a heading behind which sections declare more than 32 parameters, by their names.
#[tactic(auto, using(crate::proofs::limit_rules::CountLaws::filtered))]
pub fn parameters_fault(line: u32, names: &[WrittenName<'_>]) -> Option<(Code, u32)>
    ensures { result ≡ least (limits.too_many_parameters line (length (filter variables.is_parameter_written (map written_of names.now)))) }
{
    when(count_parameters(names) > 32, Code::E16, line)
}

/// E16 at the line of a heading with more than 256 methods.
pub fn methods_fault(line: u32, count: usize) -> Option<(Code, u32)>
    ensures { result ≡ least (limits.too_many_methods line count) }
{
    when(count > 256, Code::E16, line)
}
