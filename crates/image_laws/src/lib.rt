// The laws of words, sections and bits for a width left open; what refuses a call.
#![tactic(auto)]

ghost use Rattle.std.specs.Prelude.{◌≡◌};
ghost use Rattle.image_laws.specs.Result.{fault_number};

// "1 misfit", "2 damaged"
#[derive(Clone, Copy, Debug, PartialEq, Eq)]
pub enum Fault {
    Misfit = 1,
    Damaged = 2,
}

impl From<Fault> for u16 {
    ghost from_gives = { λ fault n. n ≡ fault_number fault };

    fn from(fault: Fault) -> u16 {
        fault as u16
    }
}
