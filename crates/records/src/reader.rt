// A reader of step records: the step bytes, and a position in them, which moves on by a record at each `next`.
ghost use Rattle.std.specs.Prelude.{◌≡◌, ◌+◌, ◌-◌, ◌/◌, ◌≤◌, length, take, drop};
ghost use Rattle.model.specs.Records.{record_bytes, step_of};
ghost use Rattle.request_laws.specs.Request.{requested, InRange};

use crate::format::Format;
use request_laws::Request;

#[derive(Clone, Copy, Debug)]
pub struct Reader<'a> {
    pub bytes: &'a [u8],
    pub at: usize,
}

// At the first record.
pub fn new<'a>(bytes: &'a [u8]) -> Reader<'a>
    ensures { (result.bytes ≡ bytes.entry) × (result.at ≡ 0) }
{
    Reader { bytes, at: 0 }
}

// How many records are left.
pub fn left<'a, W: Format>(r: Reader<'a>) -> usize
    requires { r.at ≤ length r.bytes.now }
    ensures { result ≡ (length r.entry.bytes.now - r.entry.at) / W.RECORD }
{
    (r.bytes.len() - r.at) / W::RECORD
}

// The record at the position, which moves on to the one behind it.
pub fn next<'s, 'a, W: Format>(r: &'s mut Reader<'a>) -> Request
    requires { r.old.at + W.RECORD ≤ length r.old.bytes.now }
    ensures { ((requested result ≡ step_of W.BITS (take (record_bytes W.BITS) (drop r.old.at r.old.bytes.now))) × InRange W.BITS result) × ((r.new.bytes ≡ r.old.bytes) × (r.new.at ≡ r.old.at + W.RECORD)) }
{
    let at = r.at;
    r.at = at + W::RECORD;
    W::record_at(r.bytes, at)
}
