//! The words of a section.

ghost use Rattle.std.specs.Prelude.{◌≡◌};
ghost use Rattle.std.specs.List.{list_any};
ghost use Rattle.std.specs.Option.{is_some};
ghost use Rattle.st_rules.specs.Faults.{least};
ghost use Rattle.st_rules.specs.Modifiers.{access_word};
ghost use Rattle.st_unit_rules.specs.VariableRules as rules;
ghost use Rattle.section_rules.specs.Home.{home_of};
ghost use Rattle.section_rules.specs.Headings.{access_misplaced, heading_faults};

use crate::home::{Home, may_have, may_have_access};
use check_names::name_spaces::{is_access_word, word_twice};
use plc_text::Code;
use st_rules::{earlier, when};
use st_tree::{Modifier, Section};

/// E10 where a section of that sort may not stand.
fn section_out_of_place(home: Home, section: &Section<u32>) -> Option<(Code, u32)>
    ensures { result ≡ least (rules.section_out_of_place (home_of home) section.now) }
{
    when(!may_have(home, section.sort), Code::E10, section.line)
}

fn has_access_word(words: &[Modifier]) -> bool
    ensures { result ≡ list_any (λ m. is_some (access_word m)) words.now }
{
    words.iter().any(|word| is_access_word(*word))
}

/// Whether access words stand where none may.
fn is_access_misplaced(home: Home, section: &Section<u32>) -> bool
    ensures { result ≡ access_misplaced (home_of home) section.now }
{
    has_access_word(section.modifiers.as_slice()) && !may_have_access(home, section.sort)
}

/// E10 where access words stand at a section that may have none.
fn access_out_of_place(home: Home, section: &Section<u32>) -> Option<(Code, u32)>
    ensures { result ≡ least (rules.access_out_of_place (home_of home) section.now) }
{
    when(is_access_misplaced(home, section), Code::E10, section.line)
}

/// The least rule that the words of a section break: E04 where a word stands twice, E10 where the section, or an access word, may not
/// stand.
#[tactic(auto, using(crate::proofs::Joined::three_joined))]
pub fn heading_fault(home: Home, section: &Section<u32>) -> Option<(Code, u32)>
    ensures { result ≡ least (heading_faults (home_of home) section.now) }
{
    let words = word_twice(section.line, section.modifiers.as_slice());
    let place = section_out_of_place(home, section);
    let access = access_out_of_place(home, section);
    earlier(earlier(words, place), access)
}
