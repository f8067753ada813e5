//! The settings of a task.

ghost use Rattle.std.specs.Prelude.{◌≡◌, ◌∷◌, [], ◌++◌, List, ℕ, nat_lt, not, ◌||◌, IfOk};
ghost use Rattle.st_tree.specs.Number.{number_of};
ghost use Rattle.st_tree.specs.declared.configuration.Setting.{Setting as ASetting};
ghost use Rattle.st_rules.specs.Faults.{earlier, least};
ghost use Rattle.st_rules.specs.Literals.{past_64_bits};
ghost use Rattle.st_unit_rules.specs.ConfigurationRules as rules;
ghost use Rattle.check_names.specs.name_spaces.Held.{Holds};

use check_names::name_spaces::HeldNames;
use plc_text::{Code, NoMemory, Text};
use st_operators::duration_fault;
use st_rules::{earlier, when};
use st_tree::{Setting, SettingValue, number_of};
use std::alloc::Global;

fn is_interval(name: &Text) -> bool
    ensures { result ≡ rules.is_interval name.now }
{
    name.as_str() == "INTERVAL"
}

fn is_priority(name: &Text) -> bool
    ensures { result ≡ rules.is_priority name.now }
{
    name.as_str() == "PRIORITY"
}

fn fits_priority(digits: &Text) -> bool
    ensures { result ≡ not (nat_lt 65_535 (number_of digits.now)) }
{
    match number_of(digits.as_str()) {
        Some(number) => number <= 65_535,
        None => false,
    }
}

/// Whether the value is of the kind that the setting has.
fn suits_setting(name: &Text, value: &SettingValue) -> bool
    ensures { result ≡ rules.suits_setting name.now value.now }
{
    match value {
        SettingValue::Time(_) => is_interval(name),
        SettingValue::Int(digits) => is_priority(name) && fits_priority(digits),
    }
}

fn number_fault(line: u32, digits: &Text) -> Option<(Code, u32)>
    ensures { result ≡ least (past_64_bits line (number_of digits.now)) }
{
    when(number_of(digits.as_str()).is_none(), Code::E13, line)
}

/// A number of more than 64 bits, or a time of more than 32.
fn past_its_limit(line: u32, value: &SettingValue) -> Option<(Code, u32)>
    ensures { result ≡ least (rules.setting_past_its_limit line value.now) }
{
    match value {
        SettingValue::Int(digits) => number_fault(line, digits),
        SettingValue::Time(text) => duration_fault(line, text.as_str()),
    }
}

fn is_bad(suits: bool, again: bool) -> bool
    ensures { result ≡ (not suits || again) }
{
    !suits || again
}

/// The first of what was found and of one more setting, whose name is held then.
fn setting_fault(
    alloc: Global,
    held: &mut HeldNames,
    found: Option<(Code, u32)>,
    x: &Setting,
) -> Result<Option<(Code, u32)>, NoMemory>
    ensures { IfOk result (λ f. (before : List (List ℕ)) (rest : List ASetting) → Holds held.old before → Holds held.new (before ++ x.now.name.text ∷ [])
        × (earlier f (least (rules.settings_faults (before ++ x.now.name.text ∷ []) rest)) ≡ earlier found (least (rules.settings_faults before (x.now ∷ rest))))) }
{
    let again = held.hold(alloc, &x.name.text)?;
    let suits = suits_setting(&x.name.text, &x.value);
    let bad = when(is_bad(suits, again), Code::E15, x.name.line);
    let past = past_its_limit(x.line, &x.value);
    Ok(earlier(found, earlier(bad, past)))
}

/// E15 for the settings of a task that are none, or stand there twice, and E13 for those past their limit: the least.
pub fn settings_fault(alloc: Global, settings: &[Setting]) -> Result<Option<(Code, u32)>, NoMemory>
    ensures { IfOk result (λ f. f ≡ least (rules.settings_faults [] settings.now)) }
{
    let mut held = HeldNames::new(alloc);
    let mut found = None;
    for x in settings {
        found = setting_fault(alloc, &mut held, found, x)?;
    }
    Ok(found)
}
