// Objects whose links are still to be followed, in a bit plane and a stack of hints.
#![tactic(auto)]

pub mod hints; // hints.rt: objects become pending, and hints
pub mod planes; // planes.rt: bits of a lent scratch
