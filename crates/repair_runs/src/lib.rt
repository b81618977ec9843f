//! Why recovery comes to an end: runs of a store in which repairs alone are made, one after another, each of which
//! leaves fewer blobs with a mark. Definitions, and their laws as the contract of a function that does nothing.
#![tactic(auto)]

ghost use Rattle.repair_runs.specs.RepairLaws.{RepairLaws};

use blob_meta::marks_alone_are_repaired;
use store_model::state_turns;

/// A repair that has begun goes on turn by turn, logs nothing and leaves the rows as they are, until it is done or a
/// write or a flush fails. Once it is done fewer blobs have a mark; where no repair is due nothing is left to repair.
pub fn repairs_come_to_an_end()
    ensures { RepairLaws }
{
    state_turns();
    marks_alone_are_repaired();
}
