//! Tests of the line, the queue that threads share: what a full queue does, and what three threads send and take.
#![tactic(auto)]

#[cfg(test)]
mod full_queue;
#[cfg(test)]
mod three_threads;
