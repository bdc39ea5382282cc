// The steps on registers and owed cards: barrier, hand, drop.
ghost use Rattle.std.specs.Prelude.{◌≡◌, ◌<◌};
ghost use Rattle.model.specs.Image.{image_of, owed};
ghost use Rattle.model.specs.Mutate.{tightest};
ghost use Rattle.model.specs.Steps.{step};
ghost use Rattle.theory.specs.Lines.{Sound};
ghost use Rattle.image_laws.specs.Sized.{Sized};
ghost use Rattle.request_laws.specs.Answer.{asked, done_of};

use image::word::Word;
use request_laws::Refusal;

pub fn barrier<W: Word>(im: &mut [W], k: usize, p: usize) -> Result<W, Refusal>
    requires sized { Sized W.BITS k (W.words im.old) }
    requires sound { Sound (image_of W.BITS k (W.words im.old)) }
    requires p_bound { p < 16 }
    ensures { done_of W.value result (image_of W.BITS k (W.words im.new)) ≡ step tightest (image_of W.BITS k (W.words im.old)) (asked 4 p 0 0 0) }
{
    let o = image::sections::owed(im, k, p).value();
    if o == 0 {
        return Err(Refusal::NothingToDo);
    }
    bits_and_cards::cards::dirty_card(im, k, o - 1);
    image::sections::set_owed(im, k, p, W::of(0));
    Ok(W::of(0))
}

// Player q's register b gets a copy of p's register a.
pub fn hand<W: Word>(
    im: &mut [W],
    k: usize,
    p: usize,
    a: usize,
    q: usize,
    b: usize,
) -> Result<W, Refusal>
    requires sized { Sized W.BITS k (W.words im.old) }
    requires p_bound { (p < 16) × (a < 16) × (q < 16) × (b < 16) }
    requires p_value { (owed (image_of W.BITS k (W.words im.old)) p ≡ 0) × (owed (image_of W.BITS k (W.words im.old)) q ≡ 0) }
    ensures { done_of W.value result (image_of W.BITS k (W.words im.new)) ≡ step tightest (image_of W.BITS k (W.words im.old)) (asked 5 p a q b) }
{
    let v = image::sections::reg(im, k, p, a);
    image::sections::set_reg(im, k, q, b, v);
    Ok(W::of(0))
}

pub fn drop<W: Word>(im: &mut [W], k: usize, p: usize, a: usize) -> Result<W, Refusal>
    requires sized { Sized W.BITS k (W.words im.old) }
    requires p_bound { (p < 16) × (a < 16) }
    requires p_value { owed (image_of W.BITS k (W.words im.old)) p ≡ 0 }
    ensures { done_of W.value result (image_of W.BITS k (W.words im.new)) ≡ step tightest (image_of W.BITS k (W.words im.old)) (asked 6 p a 0 0) }
{
    image::sections::set_reg(im, k, p, a, W::of(0));
    Ok(W::of(0))
}
