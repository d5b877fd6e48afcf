// The text that the program writes: the line of a record, and the lines of the processes.
#![tactic(auto)]

pub mod line;
pub mod processes;
