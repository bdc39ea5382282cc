// The lines of the service map.
#![tactic(auto)]

pub mod lines; // lines.rt: the lines, one behind the other
