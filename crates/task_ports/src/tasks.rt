//! The ports of a task.

ghost use Rattle.std.specs.Prelude.{◌≡◌, ◌+◌, [], IfOk, OnOk, if◌then◌else◌};
ghost use Rattle.st_values.specs.View.{program_of};
ghost use Rattle.st_meaning.specs.ProcessImage as words;
ghost use Rattle.process_image.specs.Located.{all_seen, seen};
ghost use Rattle.task_ports.specs.TaskPorts.{IsPort, is_latched, AllAt, IsAt, ArePortsAmong};
ghost use Rattle.task_ports.specs.Private.Takes.{Takes};

use crate::ports::Port;
use mem_layout::Layout;
use plc_text::NoMemory;
use process_image::{Located, bit_weight, first_byte, is_among, is_input, is_output, size_of};
use st_tree::width_of;
use std::alloc::Global;

/// The inputs and outputs of a task, in the order of the text.
#[derive(Drop)]
pub struct TaskPorts {
    pub inputs: Vec<Port>,
    pub outputs: Vec<Port>,
    /// The end of the last address that an output covers.
    pub end: u32,
}

/// The port of a variable with an address.
fn port_of(layout: &Layout, x: &Located<'_>) -> Result<Port, NoMemory>
    ensures { IsAt (program_of layout.now) (seen x.now) → IfOk result (λ port. IsPort (program_of layout.now) port (seen x.now)) }
{
    let Some(at) = layout.place_of(&x.path) else {
        return Err(NoMemory);
    };
    let first = first_byte(x.address)?;
    let weight = bit_weight(x.address)?;
    Ok(Port {
        region: at.region,
        offset: at.offset,
        elem: x.elem,
        first,
        width: width_of(x.address.as_str()),
        weight,
    })
}

/// Adds a variable that is an input in these regions.
fn take_input(
    layout: &Layout,
    x: &Located<'_>,
    footprint: &[u32],
    inputs: &mut Vec<Port>,
) -> Result<(), NoMemory>
    ensures { OnOk result (Takes (program_of layout.now) (is_latched footprint.now) (seen x.now) inputs.old.items inputs.new.items) }
{
    if is_input(x.address) && is_among(footprint, x.path.region) {
        let port = port_of(layout, x)?;
        inputs.push(port)?;
        Ok(())
    } else {
        Ok(())
    }
}

/// Adds a variable that is an output in these regions.
fn take_output(
    layout: &Layout,
    x: &Located<'_>,
    footprint: &[u32],
    outputs: &mut Vec<Port>,
) -> Result<(), NoMemory>
    ensures { OnOk result (Takes (program_of layout.now) (words.is_shown footprint.now) (seen x.now) outputs.old.items outputs.new.items) }
{
    if is_output(x.address) && is_among(footprint, x.path.region) {
        let port = port_of(layout, x)?;
        outputs.push(port)?;
        Ok(())
    } else {
        Ok(())
    }
}

/// The end of the address of a variable that is an output in these regions.
fn end_of(x: &Located<'_>, footprint: &[u32]) -> Result<u32, NoMemory>
    ensures { IfOk result (λ end. end ≡ (if words.is_shown footprint.now (seen x.now) then words.first_byte x.now.address.now + words.size_of x.now.address.now else 0)) }
{
    if is_output(x.address) && is_among(footprint, x.path.region) {
        let first = first_byte(x.address)?;
        match first.checked_add(size_of(x.address)) {
            Some(end) => Ok(end),
            None => Err(NoMemory),
        }
    } else {
        Ok(0)
    }
}

/// Adds the inputs and outputs in these regions, and tells where the outputs end.
#[tactic(auto, using(crate::proofs::TakeLaws::taking_begun))]
fn take_each(
    layout: &Layout,
    located: &[Located<'_>],
    footprint: &[u32],
    inputs: &mut Vec<Port>,
    outputs: &mut Vec<Port>,
) -> Result<u32, NoMemory>
    requires inputs { inputs.old.items ≡ [] }
    requires outputs { outputs.old.items ≡ [] }
    ensures { AllAt (program_of layout.now) (all_seen located.now) → IfOk result (λ end. ArePortsAmong (program_of layout.now) (all_seen located.now) footprint.now inputs.new.items outputs.new.items end) }
{
    let mut end: u32 = 0;
    for x in located {
        take_input(layout, x, footprint, inputs)?;
        take_output(layout, x, footprint, outputs)?;
        let one = end_of(x, footprint)?;
        end = one.max(end);
    }
    Ok(end)
}

impl TaskPorts {
    /// Those of a task with this footprint, among the variables with addresses.
    pub fn build(
        alloc: Global,
        layout: &Layout,
        located: &[Located<'_>],
        footprint: &[u32],
    ) -> Result<TaskPorts, NoMemory>
        ensures { AllAt (program_of layout.now) (all_seen located.now) → IfOk result (λ ports. ArePortsAmong (program_of layout.now) (all_seen located.now) footprint.now ports.inputs.items ports.outputs.items ports.end) }
    {
        let mut inputs = Vec::new(alloc);
        let mut outputs = Vec::new(alloc);
        let end = take_each(layout, located, footprint, &mut inputs, &mut outputs)?;
        Ok(TaskPorts {
            inputs,
            outputs,
            end,
        })
    }
}
