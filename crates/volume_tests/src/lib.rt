//! Tests of `volume_model` over its public calls: each call once, vectors from outside, and the machine's replies.
#![tactic(auto)]

#[cfg(test)]
mod commands;
#[cfg(test)]
mod machine;
#[cfg(test)]
mod values;
