//! Why every run of a store ends: each turn of a store is a move of its run, seen as a state of a run with the messages
//! of the driver, and each step of a driver is a step of it. Definitions, and laws as contracts of functions that do
//! nothing.
#![tactic(auto)]

ghost use Rattle.run_moves.specs.ChannelTurns.{ChannelTurnLaws};
ghost use Rattle.run_moves.specs.DriverLaws.{DriverLaws, PlainRowLaws};
ghost use Rattle.run_moves.specs.JobTurns.{JobTurnLaws};
ghost use Rattle.run_moves.specs.ServingTurns.{ServingTurnLaws};

use run_work::{moves_keep_facts, what_is_due};

/// Each turn of a channel is a move of it.
pub fn channels_move()
    ensures { ChannelTurnLaws }
{}

/// Each turn of the metadata thread that serves a message is a move: it answers, an insert is lost, or a job begins.
pub fn messages_move()
    ensures { ServingTurnLaws }
{}

/// Each turn of a job is a move: a page is written, a head's page is replaced, or the job fails.
pub fn jobs_move()
    ensures { JobTurnLaws }
{}

/// Whatever turns are made of a store, from its opening on, a row with a claim has a write first, and so has one whose
/// insert's job runs.
pub fn rows_stay_plain()
    ensures { PlainRowLaws }
{}

/// Each step of a driver, over a store and its messages, is a step of the run; a driver can start at whatever stages
/// the rows are; and a channel that makes a turn can move.
pub fn steps_are_moves()
    ensures { DriverLaws }
{
    moves_keep_facts();
    what_is_due();
}
