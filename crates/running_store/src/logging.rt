//! Entries of the log.

ghost use Rattle.std.specs.Prelude.{◌≡◌, ◌<◌, ◌∷◌, true, List, length, IsSome};
ghost use Rattle.volume_model.specs.declared.command.Command.{Command as ACommand};
ghost use Rattle.running_store.specs.Running.{view_of, InOrder};
ghost use Rattle.running_store.specs.StoreView.{rows_of};
ghost use Rattle.running_store.specs.Reserved.{is_read, IsContent, IsPageAnswer, IsReplyOf};
ghost use Rattle.volume_model.specs.declared.reply.Reply.{Reply as AReply};
ghost use Rattle.running_store.specs.Stages.{stage_seen};
ghost use Rattle.running_store.specs.Steps.{decided, gone_on, Asks, left_at, logged_at, logged_on, logged_then};
ghost use Rattle.running_store.specs.Steps.{OnlyRow};

use crate::reserved::Taken;
use crate::running::Running;
use crate::stages::{Decision, Stage};
use page_disk::{Page, PageDisk};
use std::boxed::Box;
use volume_model::{Entry, Reply};

/// What a command is answered with: a reply, or the content of a page that was read.
pub(crate) enum Answer<'a> {
    Reply(Reply),
    Page(&'a Page),
}

/// Logs a reply in a turn of the metadata thread: the channel of the command is to be told.
pub fn log<D: PageDisk>(running: &mut Running<D>, channel: u8, reply: Reply)
    requires order { InOrder D.PageDisk running.old }
    requires channel { channel < 16 }
    requires left { 0 < length (rows_of running.old.rows.items channel).left }
    ensures logged { (command : ACommand) (rest : List ACommand)
        → (rows_of running.old.rows.items channel).left ≡ command ∷ rest →
        view_of running.new ≡ logged_at (view_of running.old) channel command rest reply (D.clock running.new.disk) }
    ensures row { OnlyRow running.old.rows.items running.new.rows.items channel
        (decided (rows_of running.old.rows.items channel)) }
    ensures order { InOrder D.PageDisk running.new }
{
    log_then(
        running,
        channel,
        Answer::Reply(reply),
        Stage::Decided(Decision::Answered),
    );
}

/// Logs a reply in a turn of the channel's own, which goes on with its next command.
pub fn log_here<D: PageDisk>(running: &mut Running<D>, channel: u8, reply: Reply)
    requires order { InOrder D.PageDisk running.old }
    requires channel { channel < 16 }
    requires left { 0 < length (rows_of running.old.rows.items channel).left }
    ensures logged { (command : ACommand) (rest : List ACommand)
        → (rows_of running.old.rows.items channel).left ≡ command ∷ rest →
        view_of running.new ≡ logged_on (view_of running.old) channel command rest reply (D.clock running.new.disk) }
    ensures row { OnlyRow running.old.rows.items running.new.rows.items channel
        (gone_on (rows_of running.old.rows.items channel)) }
    ensures order { InOrder D.PageDisk running.new }
{
    log_then(running, channel, Answer::Reply(reply), Stage::Idle);
}

/// Logs the content of a page, as the answer to a channel's read of it, in a turn of the channel's own.
pub fn log_content<D: PageDisk>(running: &mut Running<D>, channel: u8, content: &Page)
    requires order { InOrder D.PageDisk running.old }
    requires channel { channel < 16 }
    requires left { 0 < length (rows_of running.old.rows.items channel).left }
    requires reads { Asks (view_of running.old) channel (λ command. is_read command ≡ true) }
    ensures logged { (reply : AReply) × IsContent content.now reply × ((command : ACommand) (rest : List ACommand)
        → (rows_of running.old.rows.items channel).left ≡ command ∷ rest → view_of running.new
        ≡ logged_on (view_of running.old) channel command rest reply (D.clock running.new.disk)) }
    ensures row { OnlyRow running.old.rows.items running.new.rows.items channel
        (gone_on (rows_of running.old.rows.items channel)) }
    ensures order { InOrder D.PageDisk running.new }
{
    log_then(running, channel, Answer::Page(content), Stage::Idle);
}

/// The reply of an answer; the content of a page goes into a page that is reserved for it.
fn reply_of(answer: Answer<'_>, reserved: Option<Box<Page>>) -> Reply
    requires { IsPageAnswer answer → IsSome reserved }
    ensures { IsReplyOf answer.entry result }
{
    match answer {
        Answer::Reply(reply) => reply,
        Answer::Page(content) => match reserved {
            Some(mut page) => {
                *page = *content;
                Reply::Content(page)
            }
            None => unreachable!(),
        },
    }
}

/// Logs the answer to the first command of a channel, which leaves its row at this stage; the clock is the entry's
/// mark.
pub(crate) fn log_then<D: PageDisk>(
    running: &mut Running<D>,
    channel: u8,
    answer: Answer<'_>,
    next: Stage,
)
    requires order { InOrder D.PageDisk running.old }
    requires channel { channel < 16 }
    requires left { 0 < length (rows_of running.old.rows.items channel).left }
    requires reads { IsPageAnswer answer → Asks (view_of running.old) channel (λ command. is_read command ≡ true) }
    ensures logged { (reply : AReply) × IsReplyOf answer.entry reply × ((command : ACommand) (rest : List ACommand)
        → (rows_of running.old.rows.items channel).left ≡ command ∷ rest → view_of running.new
        ≡ logged_then (stage_seen next) (view_of running.old) channel command rest reply (D.clock running.new.disk)) }
    ensures row { OnlyRow running.old.rows.items running.new.rows.items channel
        (left_at (stage_seen next) (rows_of running.old.rows.items channel)) }
    ensures order { InOrder D.PageDisk running.new }
{
    let Some(Taken { command, page }) = running.rows[channel as usize].take(next) else {
        unreachable!()
    };
    let reply = reply_of(answer, page);
    let index = running.logged[channel as usize];
    running.logged[channel as usize] += 1;
    running.entries.push_reserved(Entry {
        channel,
        index,
        command,
        reply,
    });
    let mark = running.disk.clock();
    running.marks.push_reserved(mark);
}
