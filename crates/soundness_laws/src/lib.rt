// The laws of every line of "undamaged" but Cover, for words of any width.
#![tactic(auto)]
