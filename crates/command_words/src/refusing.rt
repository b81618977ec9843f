//! What a user is told whose words are no command.

ghost use Rattle.std.specs.Prelude.{◌≡◌, IfOk, IfSome, IfNone, []};
ghost use Rattle.clap.specs.Kinds.{IsAmong};
ghost use Rattle.clap.specs.Values.{kind_of};
ghost use Rattle.command_words.specs.Words.{refusal_of};

use crate::reading::parse;
use clap::Error;
use out_of_memory::Memory;
use std::alloc::Global;

/// What `clap` says of words that it refuses, or that ask for help or the version: a text of some lines. `None` where
/// it takes the words.
pub fn refusal(alloc: Global, words: &[String]) -> Result<Option<Error>, Memory>
    ensures refused { IfOk result (λ o. IfSome o (λ error. IsAmong (kind_of error) (refusal_of words.now))) }
    ensures taken { IfOk result (λ o. IfNone o (refusal_of words.now ≡ [])) }
{
    match parse(alloc, words)? {
        Ok(_) => Ok(None),
        Err(error) => Ok(Some(error)),
    }
}
