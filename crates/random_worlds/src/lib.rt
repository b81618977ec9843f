//! Random scripts for tests, and the plain volumes and counts by which their answers and what they leave are known.
#![tactic(auto)]

mod asks;
mod attributes;
mod causes;
mod chains;
mod changes;
mod commands;
mod drawn_asks;
mod draws;
mod families;
mod filling;
mod lines;
mod marks;
mod shown;
mod space;
mod states;
mod worlds;

pub use asks::Ask;
pub use commands::command_of;
pub use drawn_asks::{drawn, drawn_count, drawn_in_family};
pub use draws::Draws;
pub use lines::push_line;
pub use shown::{Shown, expect_volumes, shown_of};
pub use states::State;
pub use worlds::World;
