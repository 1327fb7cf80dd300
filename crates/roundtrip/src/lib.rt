// What was written, read back: as proved functions that call the writer and then the reader.
#![tactic(auto)]

pub mod frames;
pub mod lines;
