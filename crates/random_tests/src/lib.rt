//! Random scripts of the verbs that the program serves, on one channel or on many by random schedules or by threads: their
//! answers are those of plain volumes along the log and of counts of what is clear, also where power fails at a call of the
//! device. In five hundred of those on one channel families of volumes grow, and one in five of these is stopped after
//! each call of the device.
#![tactic(auto)]

#[cfg(test)]
mod channel_crashes;
#[cfg(test)]
mod channel_plays;
#[cfg(test)]
mod channel_runs;
#[cfg(test)]
mod channel_scripts;
#[cfg(test)]
mod crashes;
#[cfg(test)]
mod endings;
#[cfg(test)]
mod families;
#[cfg(test)]
mod long_families;
#[cfg(test)]
mod replays;
#[cfg(test)]
mod schedules;
#[cfg(test)]
mod thread_runs;
#[cfg(test)]
mod whole;
