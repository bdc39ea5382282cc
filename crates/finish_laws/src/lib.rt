// The laws of a finish, for images of any width.
#![tactic(auto)]
