// The law of where events stand.
ghost use Rattle.acs_coverage.specs.Points.{points_of};
ghost use Rattle.acs_coverage.specs.Standing.{AllStand};
ghost use Rattle.acs_trace.specs.Story.{story_of};
ghost use Rattle.acs_tree.specs.declared.input.Input.{Input};
ghost use Rattle.acs_tree.specs.declared.kind.Kind.{Kind};
ghost use Rattle.acs_tree.specs.declared.routine.Routine.{Routine};
ghost use Rattle.acs_tree.specs.declared.values.Values.{Values};

/// Each statement that begins, each comparison and each WHEN that is taken, as a routine's story tells them, stands at one
/// of its points: of every tree, input and values. So what is counted is counted at the token of a point.
pub fn events_at_points()
    ensures { (routine : Routine) (kind : Kind) (input : Input) (values : Values) →
        AllStand (points_of routine) (story_of routine kind input values).events }
{}
