// The reader and the writer of one record.
#![tactic(auto)]

pub mod read;
pub mod write;
