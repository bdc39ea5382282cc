// The laws of a finish's marking, for images of any width.
#![tactic(auto)]
