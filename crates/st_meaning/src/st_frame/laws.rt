//! Laws of what programs promise and touch.

ghost use Rattle.st_meaning.specs.st_frame.FootprintLaws.{FootprintLaws};
ghost use Rattle.st_meaning.specs.st_frame.FrameLaws.{FrameLaws};
ghost use Rattle.st_meaning.specs.st_frame.GoodLaws.{GoodLaws};

/// What a task writes is in its footprint, and a cycle does not hang on how the footprint is listed.
pub fn footprint_laws()
    ensures { FootprintLaws }
{}

/// What is read in a good store fits, what is put into it keeps it good, and the store at the beginning is good.
pub fn good_laws()
    ensures { GoodLaws }
{}

/// A cycle touches nothing but its footprint, changes nothing but what the task writes, and keeps good stores good.
pub fn frame_laws()
    ensures { FrameLaws }
{}
