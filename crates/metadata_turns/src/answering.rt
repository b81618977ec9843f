//! Commands that are answered in memory.

ghost use Rattle.std.specs.Prelude.{◌≡◌, ◌≢◌, ◌<◌, Some, None, option_copied, IfOk, IfSome, IsSome};
ghost use Rattle.std.specs.FinMap as map;
ghost use Rattle.std.specs.Option.{option_and_then};
ghost use Rattle.blob_meta.specs.Asked.{HasValue, IsLiveOf, IsOnAttributes};
ghost use Rattle.store_model.specs.Cases.{IsInMemory};
ghost use Rattle.store_model.specs.Cases as kind;
ghost use Rattle.super_block.specs.Faults.{IsFaultless};
ghost use Rattle.metadata_turns.specs.Answering.{ComesTo, DoesVerb, IsAnswerable, IsAskedInMemory};
ghost use Rattle.metadata_turns.specs.Infos.{IsQuestion};
ghost use Rattle.running_store.specs.RunningState.{IsRunning};
ghost use Rattle.running_store.specs.TurnMade.{TurnMade};
ghost use Rattle.running_store.specs.Running.{view_of, InOrder};
ghost use Rattle.running_store.specs.StoreView.{rows_of, state_of};
ghost use Rattle.running_store.specs.Steps.{decided, Asks, IsPostedAt, OnlyRow};

use crate::infos::reply_to;
use blob_meta::{HeadMap, Metas, asked_volume, find, refusal_of};
use out_of_memory::Memory;
use page_disk::PageDisk;
use running_store::{Running, first_of, halt, log};
use std::alloc::Global;
use super_block::Super;
use volume_model::{Command, Reply, TryCopy, XattrList};

/// New live attributes of the blob at a head.
#[derive(Drop)]
pub(crate) struct NewLive {
    pub(crate) head: u32,
    pub(crate) xattrs: XattrList,
}

/// A reply, and what changes in memory with it.
#[derive(Drop)]
pub(crate) struct Effect {
    pub(crate) reply: Reply,
    pub(crate) live: Option<NewLive>,
}

/// The live attributes of the blob at a head, if a head is given and a blob is there.
pub fn live_at(live: &HeadMap<XattrList>, head: Option<u32>) -> Option<&XattrList>
    ensures { option_copied result ≡ option_and_then (λ h. map.get live.now h) head }
{
    match head {
        Some(head) => live.get(head),
        None => None,
    }
}

/// The effect of a command that nothing refuses, on the volume at a head.
fn done(alloc: Global, head: u32, live: &XattrList, command: &Command) -> Result<Effect, Memory>
    requires attributes { IsOnAttributes command.now }
    requires in_memory { IsInMemory command.now }
    requires found { HasValue (Some live.now) command.now }
    ensures { IfOk result (λ e. DoesVerb head live.now command.now e.reply e.live) }
{
    match command {
        Command::SetX { key, value, .. } => Ok(Effect {
            reply: Reply::Ok,
            live: Some(NewLive {
                head,
                xattrs: live.with_value(alloc, key.bytes(), value.bytes())?,
            }),
        }),
        Command::DelX { key, .. } => Ok(Effect {
            reply: Reply::Ok,
            live: Some(NewLive {
                head,
                xattrs: live.without(alloc, key.bytes())?,
            }),
        }),
        Command::GetX { key, .. } => match live.value_of(key.bytes()) {
            Some(value) => Ok(Effect {
                reply: Reply::Value(value.try_copy(alloc)?),
                live: None,
            }),
            None => unreachable!(),
        },
        _ => unreachable!(),
    }
}

/// What a command on attributes comes to, that is answered in memory, where the volume that it names is found at `head`
/// with these live attributes.
pub(crate) fn effect_of(
    alloc: Global,
    metas: &Metas,
    sup: &Super,
    head: Option<u32>,
    live: Option<&XattrList>,
    command: &Command,
) -> Result<Effect, Memory>
    requires attributes { IsOnAttributes command.now }
    requires in_memory { IsInMemory command.now }
    requires live { IsLiveOf metas.now sup.now (option_copied live) command.now }
    requires head { IsSome (option_copied live) → IsSome head }
    ensures { IfOk result (ComesTo metas.now sup.now head (option_copied live.entry) command.now) }
{
    if let Some(reply) = refusal_of(metas, sup, live, command) {
        return Ok(Effect { reply, live: None });
    }
    match (head, live) {
        (Some(head), Some(live)) => done(alloc, head, live, command),
        _ => unreachable!(),
    }
}

/// Keeps new live attributes of a blob that is there.
fn keep_live(live: &mut HeadMap<XattrList>, new: Option<NewLive>)
    requires there { IfSome new (λ n. IsSome (map.get live.old n.head)) }
    ensures none { new ≡ None → live.new ≡ live.old }
    ensures some { IfSome new (λ n. live.new ≡ map.insert live.old n.head n.xattrs) }
{
    if let Some(NewLive { head, xattrs }) = new {
        match live.insert(head, xattrs) {
            Ok(()) => {}
            Err(Memory) => unreachable!(),
        }
    }
}

/// Answers the posted command of a channel on a volume's attributes: its reply is logged, and new live attributes are
/// kept.
fn answer_on_attributes<D: PageDisk>(running: &mut Running<D>, channel: u8)
    requires order { InOrder D.PageDisk running.old }
    requires channel { channel < 16 }
    requires posted { IsPostedAt (view_of running.old) channel }
    requires unfilled { running.old.filling ≢ Some channel }
    requires asked { Asks (view_of running.old) channel IsAskedInMemory }
    requires running { IsRunning (state_of D.PageDisk (view_of running.old)) }
    requires runs { running.old.stopped ≡ None }
    requires no_job { running.old.job ≡ None }
    ensures case { TurnMade D.PageDisk (view_of running.old) (view_of running.new) kind.answers }
    ensures row { OnlyRow running.old.rows.items running.new.rows.items channel
        (decided (rows_of running.old.rows.items channel)) }
    ensures order { InOrder D.PageDisk running.new }
{
    let command = first_of(&running.rows, channel);
    let head = find(&running.metas, &running.sup, asked_volume(command));
    let live = live_at(&running.live, head);
    match effect_of(
        running.alloc,
        &running.metas,
        &running.sup,
        head,
        live,
        command,
    ) {
        Ok(Effect { reply, live }) => {
            keep_live(&mut running.live, live);
            log(running, channel, reply);
        }
        Err(Memory) => log(running, channel, Reply::Memory),
    }
}

/// Answers the posted command of a channel that asks what there is.
fn answer_question<D: PageDisk>(running: &mut Running<D>, channel: u8)
    requires order { InOrder D.PageDisk running.old }
    requires channel { channel < 16 }
    requires posted { IsPostedAt (view_of running.old) channel }
    requires unfilled { running.old.filling ≢ Some channel }
    requires asks { Asks (view_of running.old) channel IsQuestion }
    requires running { IsRunning (state_of D.PageDisk (view_of running.old)) }
    requires faultless { IsFaultless running.old.sup }
    requires runs { running.old.stopped ≡ None }
    requires no_job { running.old.job ≡ None }
    ensures case { TurnMade D.PageDisk (view_of running.old) (view_of running.new) kind.answers }
    ensures row { OnlyRow running.old.rows.items running.new.rows.items channel
        (decided (rows_of running.old.rows.items channel)) }
    ensures order { InOrder D.PageDisk running.new }
{
    let command = first_of(&running.rows, channel);
    match reply_to(running, command) {
        Ok(reply) => log(running, channel, reply),
        Err(Memory) => log(running, channel, Reply::Memory),
    }
}

/// Answers the posted command of a channel in memory.
pub(crate) fn answer<D: PageDisk>(running: &mut Running<D>, channel: u8)
    requires order { InOrder D.PageDisk running.old }
    requires channel { channel < 16 }
    requires posted { IsPostedAt (view_of running.old) channel }
    requires unfilled { running.old.filling ≢ Some channel }
    requires answerable { Asks (view_of running.old) channel IsAnswerable }
    requires running { IsRunning (state_of D.PageDisk (view_of running.old)) }
    requires faultless { IsFaultless running.old.sup }
    requires runs { running.old.stopped ≡ None }
    requires no_job { running.old.job ≡ None }
    ensures case { TurnMade D.PageDisk (view_of running.old) (view_of running.new) kind.answers }
    ensures row { OnlyRow running.old.rows.items running.new.rows.items channel
        (decided (rows_of running.old.rows.items channel)) }
    ensures order { InOrder D.PageDisk running.new }
{
    match first_of(&running.rows, channel) {
        Command::Info { .. } | Command::List | Command::Df => answer_question(running, channel),
        _ => answer_on_attributes(running, channel),
    }
}

/// Answers the posted command of a channel in memory, or, on a stopped store, logs that it is stopped.
pub fn answer_or_halt<D: PageDisk>(running: &mut Running<D>, channel: u8)
    requires order { InOrder D.PageDisk running.old }
    requires channel { channel < 16 }
    requires posted { IsPostedAt (view_of running.old) channel }
    requires unfilled { running.old.filling ≢ Some channel }
    requires answerable { Asks (view_of running.old) channel IsAnswerable }
    requires running { IsRunning (state_of D.PageDisk (view_of running.old)) }
    requires faultless { IsFaultless running.old.sup }
    requires no_job { running.old.job ≡ None }
    ensures answered { running.old.stopped ≡ None
        → TurnMade D.PageDisk (view_of running.old) (view_of running.new) kind.answers }
    ensures halted { IsSome running.old.stopped
        → TurnMade D.PageDisk (view_of running.old) (view_of running.new) kind.halts }
    ensures row { OnlyRow running.old.rows.items running.new.rows.items channel
        (decided (rows_of running.old.rows.items channel)) }
    ensures order { InOrder D.PageDisk running.new }
{
    if running.stopped.is_some() {
        halt(running, channel);
    } else {
        answer(running, channel);
    }
}
