//! Tests of a running store by its public calls: writes of several channels to empty slots, beside resizes, snapshots
//! and deletes, in an order that is given turn by turn; how a request for pages is split; and the queue of messages.
#![tactic(auto)]

#[cfg(test)]
mod ends;
#[cfg(test)]
mod families;
#[cfg(test)]
mod inserts;
#[cfg(test)]
mod lacks;
#[cfg(test)]
mod metadata;
#[cfg(test)]
mod orders;
#[cfg(test)]
mod parts;
#[cfg(test)]
mod sessions;
#[cfg(test)]
mod takeovers;
