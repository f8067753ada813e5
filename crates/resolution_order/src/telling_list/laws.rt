//! Laws of what is told one by one.

ghost use Rattle.resolution_order.specs.telling_list.JobLaws.{JobLaws};

/// What can be told of a unit may be told one by one in any order, until no more can be told: then all is told.
pub fn job_laws()
    ensures { JobLaws }
{}
