// Step records from their bytes.
#![tactic(auto)]

pub mod format; // format.rt: a step record from its bytes, at each width
pub mod reader; // reader.rt: one after the other, from a position in the step bytes
