// What the walks along the free runs share whatever the width: where they end, what they count, and their laws.
#![tactic(auto)]

// A run, and the run before it in the chain; 0: there is none, as the words of the chain have it, to which both are written back.
#[derive(Clone, Copy)]
pub struct Room {
    pub run: usize,
    pub before: usize,
}

// Free granules: those of all runs, and those of the usable ones.
#[derive(Clone, Copy)]
pub struct Free {
    pub granules: usize,
    pub usable: usize,
}
