//! Tests of `nbd_words` with the bytes of a session, written down from the protocol's layout of its fields.
#![tactic(auto)]

#[cfg(test)]
mod answers;
#[cfg(test)]
mod options;
#[cfg(test)]
mod requests;
