//! Every line on standard error, word for word, with the exit status.
#![tactic(auto)]

#[cfg(test)]
mod expecting;
#[cfg(test)]
mod image_lines;
#[cfg(test)]
mod script_lines;
#[cfg(test)]
mod system_lines;
#[cfg(test)]
mod word_lines;
