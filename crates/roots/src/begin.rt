// Kind 9: "cards become 0, the cycle runs".
ghost use Rattle.std.specs.Prelude.{◌≡◌};
ghost use Rattle.model.specs.Image.{image_of};
ghost use Rattle.model.specs.Mutate.{tightest};
ghost use Rattle.model.specs.Steps.{step};
ghost use Rattle.image_laws.specs.Sized.{Sized};
ghost use Rattle.request_laws.specs.Answer.{asked, done_of};

use image::section::Section;
use image::word::Word;
use request_laws::Refusal;

#[tactic(auto, using(collector_laws::proofs::Steps::begin_refused, collector_laws::proofs::Steps::begin_goes))]
pub fn begin<W: Word>(im: &mut [W], k: usize) -> Result<W, Refusal>
    requires { Sized W.BITS k (W.words im.old) }
    ensures { done_of W.value result (image_of W.BITS k (W.words im.new)) ≡ step tightest (image_of W.BITS k (W.words im.old)) (asked 9 0 0 0 0) }
{
    if image::sections::running(im, k).value() == 1 {
        return Err(Refusal::WrongPhase);
    }
    stretches::clearing::clear_section(im, k, Section::Cards);
    image::sections::set_general_word(im, k, 0, W::of(1));
    Ok(W::of(0))
}
