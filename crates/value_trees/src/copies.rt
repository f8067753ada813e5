//! Copies of values and of paths.

ghost use Rattle.std.specs.Prelude.{◌≡◌, IfOk};

use crate::value::{Member, Value};
use plc_text::{NoMemory, Series, Text};
use st_tree::Path;
use std::alloc::Global;

/// The same path again.
pub fn copy_path(alloc: Global, path: &Path) -> Result<Path, NoMemory>
    ensures { IfOk result (λ copy. copy ≡ path.now) }
{
    let steps = path.steps.copy(alloc)?;
    Ok(Path {
        region: path.region,
        steps,
    })
}

/// The same value again.
#[cycle(copy)]
pub fn copy_value(alloc: Global, v: &Value) -> Result<Value, NoMemory>
    ensures { IfOk result (λ copy. copy ≡ v.now) }
{
    match v {
        Value::Number(n) => Ok(Value::Number(*n)),
        Value::Reference(None) => Ok(Value::Reference(None)),
        Value::Reference(Some(path)) => Ok(Value::Reference(Some(copy_path(alloc, path)?))),
        Value::Array(low, items) => Ok(Value::Array(*low, copy_items(alloc, items.as_slice())?)),
        Value::Structure(name, members) => Ok(Value::Structure(
            Text::copy(alloc, name.as_str())?,
            copy_members(alloc, members.as_slice())?,
        )),
        Value::Instance(name, members) => Ok(Value::Instance(
            Text::copy(alloc, name.as_str())?,
            copy_members(alloc, members.as_slice())?,
        )),
    }
}

#[cycle(copy)]
fn copy_items(alloc: Global, items: &[Value]) -> Result<Series<Value>, NoMemory>
    ensures { IfOk result (λ copy. copy ≡ items.now) }
{
    let mut found = Series::new(alloc);
    for item in items {
        found.push(copy_value(alloc, item)?)?;
    }
    Ok(found)
}

#[cycle(copy)]
fn copy_members(alloc: Global, members: &[Member]) -> Result<Series<Member>, NoMemory>
    ensures { IfOk result (λ copy. copy ≡ members.now) }
{
    let mut found = Series::new(alloc);
    for member in members {
        let name = Text::copy(alloc, member.name.as_str())?;
        let value = copy_value(alloc, &member.value)?;
        found.push(Member { name, value })?;
    }
    Ok(found)
}
