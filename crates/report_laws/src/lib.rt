// The laws of sweep reports for a width left open: stretches, planes of bits over them, and the ways out of a verdict and of a call.
#![tactic(auto)]
