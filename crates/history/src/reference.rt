// Plans that were worked out by hand or in print, as facts about what calls answer.
ghost use Rattle.history.specs.Reference.{ReferencePlans};

/// Calls on the reference plans answer what they should.
pub fn reference_plans()
    ensures { ReferencePlans }
{}
