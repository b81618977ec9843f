//! What a message asks for.

ghost use Rattle.std.specs.Prelude.{◌≡◌, ◌≢◌, [], None, IfErr, IfOk};
ghost use Rattle.running_store.specs.Requests.{AsksNow, HavePosted, IsAsked, IsStale};

use crate::rows::Row;
use volume_model::{Command, Msg};

/// What a message asks for.
#[derive(Clone, Copy)]
pub enum Request<'a> {
    /// The insert of the cluster that the row has claimed.
    Insert,
    /// A command of the metadata thread's.
    Meta(&'a Command),
}

/// A message that is out of date: its channel's row isn't posted under the message's number.
#[derive(Clone, Copy)]
pub struct Stale {
    /// The message's number.
    pub message: u64,
    /// The number under which the row is posted, if it is.
    pub row: Option<u64>,
}

/// What a message asks for of the rows, if it isn't out of date.
pub fn asked_in(rows: &[Row], msg: Msg) -> Result<Request<'_>, Stale>
    requires { HavePosted rows.now }
    ensures found { IfOk result (AsksNow rows.now msg) }
    ensures stale { IfErr result (IsStale rows.now msg) }
{
    let Some(row) = rows.get(msg.channel as usize) else {
        return Err(Stale {
            message: msg.serial,
            row: None,
        });
    };
    match row.posted() {
        Some(serial) if serial == msg.serial => Ok(asked_of(row)),
        row => Err(Stale {
            message: msg.serial,
            row,
        }),
    }
}

/// What a posted row asks for: an insert, if it holds a claim, or else its first command.
fn asked_of(row: &Row) -> Request<'_>
    requires { row.now.claim ≡ None → row.now.left ≢ [] }
    ensures { IsAsked row.now result }
{
    if row.claim().is_some() {
        return Request::Insert;
    }
    match row.first() {
        Some(command) => Request::Meta(command),
        None => unreachable!(),
    }
}
