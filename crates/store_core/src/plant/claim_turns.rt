//! The turns of a claim, of a write that has found its slot empty or of a fill: what is kept of a running store over
//! them.

use crate::keeping::goes_on;
use crate::plant::Plant;
use channel_turns::{ClaimTurn, CopyTurn, SendTurn, claim_or_halt, copy_or_halt, send_or_halt};
use page_disk::PageDisk;

impl<D: PageDisk> Plant<D> {
    ghost use Rattle.std.specs.Prelude.{◌≡◌, ℕ};
    ghost use Rattle.super_block.specs.Numbers.{cluster_pages_of};
    ghost use Rattle.volume_model.specs.declared.reply.Msg.{Msg as AMsg};
    ghost use Rattle.store_model.specs.Cases as kind;
    ghost use Rattle.channel_turns.specs.declared.claiming.ClaimTurn.TheVariants as claim;
    ghost use Rattle.channel_turns.specs.declared.copying.CopyTurn.TheVariants as copy;
    ghost use Rattle.channel_turns.specs.declared.sending.SendTurn.TheVariants as send;
    ghost use Rattle.running_store.specs.declared.rows.RowStage.TheVariants.{Claim, Copy, Ready};
    ghost use Rattle.channel_turns.specs.ChannelTurns.{IsFrozenFor};
    ghost use Rattle.running_store.specs.TurnMade.{TurnsAs};
    ghost use Rattle.channel_turns.specs.ClaimTurns.{row_claimed, RowsCopied, RowsSent, IsOfClaim, IsOfCopy, IsOfSend};
    ghost use Rattle.running_store.specs.Stages.{is_stage};
    ghost use Rattle.running_store.specs.Steps.{Asks, OnlyRow};
    ghost use Rattle.running_store.specs.StoreView.{rows_of, state_of};
    ghost use Rattle.running_store.specs.TurnMade.{TurnMade};

    /// Claims a cluster for the first command of a channel, a write that has found its slot empty. `Frozen` comes
    /// exactly where its blob is frozen: the store is as it was. Else `Filled` comes exactly where the slot has a
    /// cluster by now, and the write begins again. Else it is logged: with the first of `NoVolume`, `Reserved`,
    /// `OutOfRange` and `ReadOnly` that holds; with `Full` exactly where nothing refuses it and no cluster is clear;
    /// before all others on a stopped store, with `Stopped`. Else the row holds a claim on the least clear cluster, of
    /// which all pages are to be copied.
    pub fn claim(&mut self, channel: u8) -> ClaimTurn
        requires stage { is_stage (rows_of self.old.at.rows channel) channel ≡ Claim }
        ensures frozen { result ≡ claim.Frozen
            → Asks self.old.at channel (IsFrozenFor (state_of D.PageDisk self.old.at)) }
        ensures waiting { result ≡ claim.Frozen → self.new ≡ self.old }
        ensures filled { result ≡ claim.Filled → TurnMade D.PageDisk self.old.at self.new.at kind.finds_filled }
        ensures claimed { result ≡ claim.Claimed → TurnMade D.PageDisk self.old.at self.new.at kind.claims }
        ensures logged { result ≡ claim.Logged → TurnsAs D.PageDisk IsOfClaim self.old.at self.new.at }
        ensures row { OnlyRow self.old.at.rows self.new.at.rows channel
            (row_claimed result (cluster_pages_of self.old.at.super) (rows_of self.new.at.rows channel).claim
            (rows_of self.old.at.rows channel)) }
        ensures job { self.new.at.job ≡ self.old.at.job }
        ensures opening { self.new.opening ≡ self.old.opening }
        ensures right { self.new.right ≡ self.old.right }
    {
        goes_on::<D>();
        claim_or_halt(&mut self.running, channel)
    }

    /// Copies the next page of the slot for which a row, a channel's or the fill's, holds a claim into the claimed
    /// cluster: the slot's page, or its parent's, or zeros. `Lost` comes exactly where the blob is gone or its
    /// generation is another: the claim is given back, and the write begins again, or the fill's row works for no
    /// command any more. `Copied` says how many pages are left. Else the command that the row works for is logged, and
    /// its claim given back: with `ReadFault` where the read failed; with `Fault` where the write failed, and the store
    /// has stopped then; before all others on a stopped store, with `Stopped`.
    pub fn copy_page(&mut self, channel: u8) -> CopyTurn
        requires stage { (left : ℕ) × (is_stage (rows_of self.old.at.rows channel) channel ≡ Copy left) }
        ensures lost { result ≡ copy.Lost → TurnMade D.PageDisk self.old.at self.new.at kind.loses_copy }
        ensures copied { (left : ℕ) → result ≡ copy.Copied left
            → TurnMade D.PageDisk self.old.at self.new.at kind.copies }
        ensures logged { result ≡ copy.Logged → TurnsAs D.PageDisk IsOfCopy self.old.at self.new.at }
        ensures rows { RowsCopied result self.old.at.filling self.old.at.rows self.new.at.rows channel }
        ensures job { self.new.at.job ≡ self.old.at.job }
        ensures opening { self.new.opening ≡ self.old.opening }
        ensures right { self.new.right ≡ self.old.right }
    {
        goes_on::<D>();
        copy_or_halt(&mut self.running, channel)
    }

    /// Flushes the pages that are copied for a row, a channel's or the fill's, and posts its insert under the next
    /// number, by this message. The command that the row works for is logged instead, and its claim given back: with
    /// `Fault` where the flush failed, and the store has stopped then; on a stopped store with `Stopped`.
    pub fn send_ready(&mut self, channel: u8) -> SendTurn
        requires stage { is_stage (rows_of self.old.at.rows channel) channel ≡ Ready }
        ensures sent { (msg : AMsg) → result ≡ send.Post msg
            → TurnMade D.PageDisk self.old.at self.new.at kind.sends }
        ensures message { (msg : AMsg) → result ≡ send.Post msg
            → msg ≡ record { channel = channel; serial = self.old.at.serial } }
        ensures logged { result ≡ send.Logged → TurnsAs D.PageDisk IsOfSend self.old.at self.new.at }
        ensures rows { RowsSent result self.old.at.filling self.old.at.rows self.new.at.rows channel }
        ensures job { self.new.at.job ≡ self.old.at.job }
        ensures opening { self.new.opening ≡ self.old.opening }
        ensures right { self.new.right ≡ self.old.right }
    {
        goes_on::<D>();
        send_or_halt(&mut self.running, channel)
    }
}
