//! Tests of scripts, schedules and generated scripts, of plans on logical volumes and of printed lines, over public
//! calls alone; of texts that are read and printed; and of the commands that words spell, and what is said of others.
#![tactic(auto)]

#[cfg(test)]
mod commands;
#[cfg(test)]
mod family_plan_tests;
#[cfg(test)]
mod generator_tests;
#[cfg(test)]
mod grammar_tests;
#[cfg(test)]
mod help_texts;
#[cfg(test)]
mod limit_tests;
#[cfg(test)]
mod plan_stores;
#[cfg(test)]
mod plan_tests;
#[cfg(test)]
mod rename_plan_tests;
#[cfg(test)]
mod report_tests;
#[cfg(test)]
mod schedule_tests;
#[cfg(test)]
mod slot_plan_tests;
#[cfg(test)]
mod split_words;
#[cfg(test)]
mod stream_texts;
#[cfg(test)]
mod told;
#[cfg(test)]
mod uuid_tests;
#[cfg(test)]
mod word_tests;
