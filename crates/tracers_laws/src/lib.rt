// Work packets and tracers as plain records, and the laws of their words, for a width left open.
#![tactic(auto)]
