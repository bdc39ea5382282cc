// The laws of the search for what chains reach, for a width left open.
#![tactic(auto)]
