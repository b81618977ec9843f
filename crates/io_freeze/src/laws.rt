//! What the definitions of calls on guards promise, as contracts of functions that do nothing.

ghost use Rattle.std.specs.Prelude.{◌≡◌, ◌<◌, ◌⊎◌, ℕ, List, Some, All, AllPairs, Contains};
ghost use Rattle.std.specs.FinMap as map;
ghost use Rattle.io_freeze.specs.Calls.{GuardsCall, guards_after_all, all_drawn_by};
ghost use Rattle.io_freeze.specs.Guards.{GuardsState};

/// A generation is never given twice, over any list of calls: each number that they draw is above every one drawn
/// before, and a head has after them the generation that it had, or one that they drew.
pub fn generations_never_repeat()
    ensures rises { (g : GuardsState) (calls : List GuardsCall)
        → AllPairs (λ earlier later. earlier < later) (all_drawn_by g calls) }
    ensures above { (g : GuardsState) (calls : List GuardsCall)
        → All (λ number. g.drawn < number) (all_drawn_by g calls) }
    ensures drawn { (g : GuardsState) (calls : List GuardsCall) (head number : ℕ)
        → map.get (guards_after_all g calls).generations head ≡ Some number → (map.get g.generations head ≡ Some number)
        ⊎ Contains (all_drawn_by g calls) number }
{}
