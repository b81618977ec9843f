//! Whoever waits for a row takes the word of what is decided of it.

ghost use Rattle.std.specs.Prelude.{None, Some, ◌≡◌, ◌≢◌, ◌<◌};
ghost use Rattle.store_model.specs.Cases as kind;
ghost use Rattle.store_model.specs.Rows.{Decided, Idle};
ghost use Rattle.store_model.specs.Rows.{Decision as ADecision};
ghost use Rattle.channel_turns.specs.declared.settling.SettleTurn.TheVariants.{Waiting};
ghost use Rattle.std.specs.Option.{option_map};
ghost use Rattle.running_store.specs.Stages.{decided_in, decision_seen};
ghost use Rattle.channel_turns.specs.ClaimTurns.{told_as};
ghost use Rattle.running_store.specs.Running.{view_of, InOrder};
ghost use Rattle.running_store.specs.Steps.{OnlyRow};
ghost use Rattle.running_store.specs.StoreView.{rows_of};
ghost use Rattle.running_store.specs.TurnMade.{TurnMade};

use crate::turns::settle;
use page_disk::PageDisk;
use running_store::{Decision, Row, Running};

/// What `Plant::settle` finds.
#[derive(Clone, Copy)]
pub enum SettleTurn {
    /// Nothing is decided of its row yet.
    Waiting,
    /// Its cluster was inserted, and the write begins again.
    Won,
    /// Its claim was lost, and the write begins again.
    Lost,
    /// The command has been logged, and the channel goes on with the next one.
    Logged,
}

/// What a channel is told of a decision.
fn told(outcome: Decision) -> SettleTurn
    ensures { result ≡ told_as (decision_seen outcome) }
{
    match outcome {
        Decision::Answered => SettleTurn::Logged,
        Decision::Won => SettleTurn::Won,
        Decision::Lost => SettleTurn::Lost,
    }
}

/// What is decided of a row, if something is; of a number past the rows nothing is.
fn decision_of(rows: &[Row], row: u8) -> Option<Decision>
    ensures { option_map decision_seen result ≡ decided_in (rows_of rows.now row).stage }
{
    match rows.get(row as usize) {
        Some(own) => own.decision(),
        None => None,
    }
}

/// Whoever waits for a row takes the word of what is decided of it, if something is.
pub fn settle_or_wait<D: PageDisk>(running: &mut Running<D>, row: u8) -> SettleTurn
    requires order { InOrder D.PageDisk running.old }
    requires decided { (outcome : ADecision) → (rows_of running.old.rows.items row).stage ≡ Decided outcome
        → (row < 17) × ((rows_of running.old.rows.items row).claim ≡ None) }
    ensures waiting { result ≡ Waiting → (view_of running.new ≡ view_of running.old)
        × ((outcome : ADecision) → (rows_of running.old.rows.items row).stage ≢ Decided outcome) }
    ensures told { (outcome : ADecision) → (rows_of running.old.rows.items row).stage ≡ Decided outcome
        → result ≡ told_as outcome }
    ensures settled { result ≢ Waiting
        → TurnMade D.PageDisk (view_of running.old) (view_of running.new) kind.settles }
    ensures row { result ≢ Waiting → OnlyRow running.old.rows.items running.new.rows.items row
        (record (rows_of running.old.rows.items row) { stage = Idle }) }
    ensures order { InOrder D.PageDisk running.new }
{
    let Some(outcome) = decision_of(running.rows.as_slice(), row) else {
        return SettleTurn::Waiting;
    };
    settle(running, row);
    told(outcome)
}
