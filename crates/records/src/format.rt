// A step record from its bytes: of eight where words have 16 bits, of sixteen where they have 32.
ghost use Rattle.std.specs.Prelude.{◌≡◌, ℕ, ◌+◌, ◌≤◌, refl, length, take, drop};
ghost use Rattle.model.specs.Records.{record_bytes, step_of};
ghost use Rattle.request_laws.specs.Request.{requested, InRange};
ghost use Rattle.records.specs.Format.{IsFormat, narrow_is_format, wide_is_format};

use image::word::Word;
use request_laws::Request;

pub trait Format: Word {
    // The bytes of a record.
    ghost RECORD: { ℕ };

    const RECORD: usize;

    // The record whose first byte is byte `at`.
    fn record_at(steps: &[u8], at: usize) -> Request
        requires { at + RECORD ≤ length steps.now }
        ensures { (requested result ≡ step_of Self.BITS (take (record_bytes Self.BITS) (drop at steps.now))) × InRange Self.BITS result };

    ghost format: { IsFormat Self.BITS RECORD };
}

impl Format for u16 {
    ghost RECORD = { 8 };

    const RECORD: usize = 8;

    fn record_at(steps: &[u8], at: usize) -> Request {
        let kind = little_endian::wide(steps[at]);
        let who = little_endian::wide(steps[at + 1]);
        let a = little_endian::pair(steps, at + 2);
        let b = little_endian::pair(steps, at + 4);
        let c = little_endian::pair(steps, at + 6);
        Request {
            kind,
            who,
            zeros: 0,
            a,
            b,
            c,
        }
    }

    ghost format = { narrow_is_format };
}

impl Format for u32 {
    ghost RECORD = { 16 };

    const RECORD: usize = 16;

    // "kind, player or tracer, two zero bytes, then a, b, c of 32 bits, low byte first"
    fn record_at(steps: &[u8], at: usize) -> Request {
        let kind = little_endian::wide(steps[at]);
        let who = little_endian::wide(steps[at + 1]);
        let zeros = little_endian::pair(steps, at + 2);
        let a = little_endian::quad(steps, at + 4);
        let b = little_endian::quad(steps, at + 8);
        let c = little_endian::quad(steps, at + 12);
        Request {
            kind,
            who,
            zeros,
            a,
            b,
            c,
        }
    }

    ghost format = { wide_is_format };
}
