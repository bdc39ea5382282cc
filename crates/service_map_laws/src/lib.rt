// The laws of the map's lines and of the walk that draws them, for a width left open.
#![tactic(auto)]
