// Kind 13: the finish as a step. Its fields are tested before.
ghost use Rattle.std.specs.Prelude.{◌≡◌};
ghost use Rattle.model.specs.Image.{image_of};
ghost use Rattle.model.specs.Mutate.{tightest};
ghost use Rattle.model.specs.Steps.{step};
ghost use Rattle.theory.specs.Lines.{Sound};
ghost use Rattle.image_laws.specs.Sized.{Sized};
ghost use Rattle.request_laws.specs.Answer.{asked, done_of};
ghost use Rattle.runs_laws.specs.Granules.{free_of};

use image::word::Word;
use request_laws::Refusal;
use runs::counted::Counted;
use runs_laws::Free;

pub fn finish<W: Word>(im: &mut [W], k: usize, free: Free) -> Counted<W>
    requires sized { Sized W.BITS k (W.words im.old) }
    requires sound { Sound (image_of W.BITS k (W.words im.old)) }
    requires free_value { free ≡ free_of (image_of W.BITS k (W.words im.old)) }
    ensures im_after { done_of W.value result.answer (image_of W.BITS k (W.words im.new)) ≡ step tightest (image_of W.BITS k (W.words im.old)) (asked 13 0 0 0 0) }
    ensures free_value_2 { result.free ≡ free_of (image_of W.BITS k (W.words im.new)) }
{
    if image::sections::running(im, k).value() == 0 {
        return Counted {
            answer: Err(Refusal::WrongPhase),
            free,
        };
    }
    let freed = crate::finish(im, k, free.granules);
    let after = freed.free;
    Counted {
        answer: Ok(freed.value),
        free: after,
    }
}
