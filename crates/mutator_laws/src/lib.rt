// The laws of the players' steps, kinds 1 to 8, for an image of any width.
#![tactic(auto)]
