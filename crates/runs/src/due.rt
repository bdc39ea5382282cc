// Kind 14: whether fewer than so many granules are in usable runs. How many there are goes from step to step: no run is asked.
ghost use Rattle.std.specs.Prelude.{◌≡◌};
ghost use Rattle.model.specs.Image.{Image};
ghost use Rattle.model.specs.Mutate.{tightest, usable_granules};
ghost use Rattle.model.specs.Steps.{step};
ghost use Rattle.request_laws.specs.Answer.{asked, done_of};

use image::word::Word;
use request_laws::Refusal;

pub fn due<W: Word>(usable: usize, a: usize) -> Result<W, Refusal>
    ensures { (m : Image) → usable ≡ usable_granules m → done_of W.value result m ≡ step tightest m (asked 14 0 a 0 0) }
{
    if usable < a {
        return Ok(W::of(1));
    }
    Ok(W::of(0))
}
