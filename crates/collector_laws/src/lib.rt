// The laws of begin, scan, trace and clean whatever the width, and what a walk over the packets chooses.
#![tactic(auto)]
