//! The values of settings, where they fit 32 bits.

ghost use Rattle.std.specs.Prelude.{◌≡◌, Some, List, ℕ};
ghost use Rattle.plc_text.specs.Words.{same};
ghost use Rattle.st_tree.specs.Number as number;
ghost use Rattle.st_tree.specs.Duration as duration;
ghost use Rattle.st_tree.specs.declared.unit.Decl.{Decl};
ghost use Rattle.st_unit_rules.specs.Checked as checked;
ghost use Rattle.check_configurations.specs.checked_tasks.Private.Settings.{fitting, number_in};

use plc_text::Text;
use st_tree::{Setting, SettingValue, milliseconds, number_of};

fn fitting_number(digits: &Text) -> Option<Option<u32>>
    ensures { result ≡ fitting (Some (number.number_of digits.now)) }
{
    match number_of(digits.as_str()) {
        Some(number) => match u32::try_from(number) {
            Ok(number) => Some(Some(number)),
            Err(_) => None,
        },
        None => None,
    }
}

fn fitting_time(text: &Text) -> Option<Option<u32>>
    ensures { result ≡ fitting (Some (duration.milliseconds text.now)) }
{
    match milliseconds(text.as_str()) {
        Some(time) => Some(Some(time)),
        None => None,
    }
}

fn fitting_value(value: &SettingValue) -> Option<Option<u32>>
    ensures { result ≡ fitting (Some (number_in value.now)) }
{
    match value {
        SettingValue::Int(digits) => fitting_number(digits),
        SettingValue::Time(text) => fitting_time(text),
    }
}

fn is_wanted(setting: &Setting, wanted: &str) -> bool
    ensures { result ≡ same setting.now.name.text wanted.now }
{
    setting.name.text.as_str() == wanted
}

/// The value of the setting of this name that counts, if there is one; nothing where that does not fit 32 bits.
pub fn setting_value(settings: &[Setting], wanted: &str) -> Option<Option<u32>>
    ensures { (decls : List (Decl ℕ)) → result ≡ fitting (checked.setting_value decls (λ name. same name wanted.now) settings.now) }
{
    for setting in settings {
        if is_wanted(setting, wanted) {
            return fitting_value(&setting.value);
        }
    }
    Some(None)
}
