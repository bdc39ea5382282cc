// The laws of Cover and of the verdict, for words of any width.
#![tactic(auto)]
