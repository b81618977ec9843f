//! A map has one list of longest runs.

ghost use Rattle.std.specs.Prelude.{◌≡◌, List};
ghost use Rattle.volume_model.specs.declared.lists.SlotRun.{SlotRun};
ghost use Rattle.descriptors.specs.Runs.{slots_in, IsLongest};

/// Longest runs that spell one map are the same runs. So `runs_of` and `slots_of` are inverse: the runs of a map give
/// the map back, and longest runs are those of their map.
pub fn longest_runs_are_one()
    ensures { (a b : List SlotRun) → IsLongest a → IsLongest b → slots_in a ≡ slots_in b → a ≡ b }
{}
