//! A job's replacements as the model of the store has them: what the begins and the turns of jobs both speak of.
#![tactic(auto)]
