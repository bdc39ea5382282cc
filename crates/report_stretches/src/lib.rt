// The stretches of an older desk's sweep report.
#![tactic(auto)]

pub mod stretch; // stretch.rt: the stretches of a report, and whether each is good
