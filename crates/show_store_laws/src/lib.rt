// Laws of the library whatever the width: records, the dispatch, the loop of a batch, its ways out, rows of calls.
#![tactic(auto)]
