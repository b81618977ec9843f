//! That an insert commits once: in a run no two turns put a cluster into one slot of a blob under one generation.
//! Definitions, and their laws as the contract of a function that does nothing.
#![tactic(auto)]

ghost use Rattle.insert_runs.specs.InsertLaws.{InsertLaws};

use store_model::state_turns;

/// The insert of a claim puts its cluster into a slot that is empty, and a slot that is filled stays so while its
/// blob's generation does. So of two inserts of a run into one slot the later is under a greater generation, and of one
/// slot under one generation at most one commits.
pub fn inserts_commit_once()
    ensures { InsertLaws }
{
    state_turns();
}
