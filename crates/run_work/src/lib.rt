//! Why every run of a store ends: what is left to do is a number, which every move lowers, and while an actor hasn't
//! ended some actor can move. Definitions, and their laws as contracts of functions that do nothing.
#![tactic(auto)]

ghost use Rattle.run_work.specs.RunLaws.{DueLaws, EndLaws, FactLaws, ProgressLaws, WorkLaws};

/// Every move of a channel and of the metadata thread lowers the work that is left in a run, and so does every step in
/// which its actor can move.
pub fn moves_lower_work()
    ensures { WorkLaws }
{}

/// Every move keeps what each state of a run has; a driver can start on rows at any stage; and no message on its way is
/// stale.
pub fn moves_keep_facts()
    ensures { FactLaws }
{}

/// Which step is due for the metadata thread says what it is to be made of.
pub fn what_is_due()
    ensures { DueLaws }
{}

/// Where the metadata thread can't move, every channel that hasn't ended can; so some actor can move until all have
/// ended.
pub fn somebody_moves()
    ensures { ProgressLaws }
{}

/// A round lowers the work unless all have ended, so that a run of rounds ends.
pub fn rounds_end()
    ensures { EndLaws }
{}
