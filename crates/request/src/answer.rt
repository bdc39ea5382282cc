// The answer of one step: accepted with a value, or refused.
ghost use Rattle.std.specs.Prelude.{◌≡◌};
ghost use Rattle.request_laws.specs.Answer.{number_of, value_of};

use image::word::Word;
use request_laws::Refusal;

// "number (0 if accepted)"
pub fn number<W: Word>(r: Result<W, Refusal>) -> W
    ensures { W.value result ≡ number_of r }
{
    match r {
        Ok(_) => W::of(0),
        Err(refusal) => W::of(u8::from(refusal) as usize),
    }
}

// "the value is 0 unless named"
pub fn value<W: Word>(r: Result<W, Refusal>) -> W
    ensures { W.value result ≡ value_of W.value r }
{
    match r {
        Ok(v) => v,
        Err(_) => W::of(0),
    }
}
