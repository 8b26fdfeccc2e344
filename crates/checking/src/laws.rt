//! Laws of the definitions, with nothing to run.
ghost use Rattle.checking.specs.Laws.{InStepMeans};

/// A resource is in step exactly if its content is the image of the wanted row, but for the order of members, and its id
/// is the known one.
pub fn in_step_means()
    ensures { InStepMeans }
{}
