//! Tests of a store that is run by threads: workers run beside each other and send through the ruled queue, and whatever
//! their order the answers are those of plain volumes.
#![tactic(auto)]

#[cfg(test)]
mod both_claim;
#[cfg(test)]
mod program;
#[cfg(test)]
mod races;
#[cfg(test)]
mod runs;
