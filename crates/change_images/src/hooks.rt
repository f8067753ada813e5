//! Hooks one after the other.

ghost use Rattle.std.specs.Prelude.{◌≡◌, map};
ghost use Rattle.change_images.specs.Phases.{run_all};
ghost use Rattle.change_images.specs.Apply.{IsLeft, KeepsLengths};

use mem_image::Regions;
use plc_text::Fault;

/// A hook that faulted: the class that declares it, and the fault.
#[derive(Drop, Debug)]
pub struct Stop {
    pub class: u32,
    pub fault: Fault,
}

/// The fault of a change, and whether it is of a hook of the old program, whose class it names, or of the new one.
#[derive(Drop, Debug)]
pub struct Halt {
    pub old: bool,
    pub stop: Stop,
}

/// What runs the hooks of a program on images: compiled code and the room of the machine.
pub trait RunsHooks {
    ghost use Rattle.st_values.specs.Program.{Program};
    ghost use Rattle.st_change.specs.Hook.{Hook};
    ghost use Rattle.change_images.specs.Phases.{HookRun};

    /// A hook of the plan: a routine, the address of its instance, its flags.
    type Call: Drop;

    ghost program: { Self → Program };

    ghost run: { Self → HookRun };

    ghost hook: { Self.Call → Hook };

    fn run_hook(&self, call: &Self::Call, regions: &mut Regions, ticks: u32) -> Result<u32, Stop>
        ensures is { IsLeft (program self.now) result regions.new (run self.now (hook call.now) regions.old ticks) }
        ensures lengths { KeepsLengths result regions.old regions.new };
}

/// Runs the hooks in order, as far as none faults. Takes no memory.
pub fn run_hooks<H: RunsHooks>(
    hooks: &H,
    calls: &[H::Call],
    regions: &mut Regions,
    ticks: u32,
) -> Result<u32, Stop>
    ensures is { IsLeft (H.program hooks.now) result regions.new (run_all (H.run hooks.now) (map H.hook calls.now) regions.old ticks) }
    ensures lengths { KeepsLengths result regions.old regions.new }
{
    match calls {
        [] => Ok(ticks),
        [call, rest @ ..] => match hooks.run_hook(call, regions, ticks) {
            Ok(left) => run_hooks(hooks, rest, regions, left),
            Err(stop) => Err(stop),
        },
    }
}
