//! Laws of inputs and outputs.

ghost use Rattle.task_ports.specs.PortLaws.{AllPortLaws};

/// What a task's inputs and outputs do to images, they do to the store that the images show.
pub fn port_laws()
    ensures { AllPortLaws }
{}
