// Numbers from their bytes, the low byte first.
#![tactic(auto)]

ghost use Rattle.std.specs.Prelude.{◌≡◌, ◌+◌, ◌≤◌, ◌<◌, length, take, drop};
ghost use Rattle.model.specs.Records.{little};

pub fn wide(x: u8) -> usize
    ensures { (result ≡ x) × (result < 256) }
{
    x as usize
}

// The number of 16 bits whose low byte is byte `at`.
pub fn pair(bytes: &[u8], at: usize) -> usize
    requires { at + 2 ≤ length bytes.now }
    ensures { (result ≡ little (take 2 (drop at bytes.now))) × (result < 65536) }
{
    let low = wide(bytes[at]);
    let high = wide(bytes[at + 1]);
    low + 256 * high
}

// The number of 32 bits whose low byte is byte `at`.
pub fn quad(bytes: &[u8], at: usize) -> usize
    requires { at + 4 ≤ length bytes.now }
    ensures { (result ≡ little (take 4 (drop at bytes.now))) × (result < 4294967296) }
{
    let low = pair(bytes, at);
    let high = pair(bytes, at + 2);
    low + 65536 * high
}
