// The steps on a link of the object in a register: load, store.
ghost use Rattle.std.specs.Prelude.{◌≡◌, ◌<◌};
ghost use Rattle.model.specs.Image.{image_of, owed};
ghost use Rattle.model.specs.Mutate.{tightest};
ghost use Rattle.model.specs.Steps.{step};
ghost use Rattle.theory.specs.Lines.{Sound};
ghost use Rattle.image_laws.specs.Sized.{Sized};
ghost use Rattle.request_laws.specs.Answer.{asked, done_of};

use image::word::Word;
use request_laws::Refusal;

pub fn load<W: Word>(
    im: &mut [W],
    k: usize,
    p: usize,
    a: usize,
    b: usize,
    c: usize,
) -> Result<W, Refusal>
    requires sized { Sized W.BITS k (W.words im.old) }
    requires sound { Sound (image_of W.BITS k (W.words im.old)) }
    requires p_bound { (p < 16) × (a < 16) × (b < 16) }
    requires p_value { owed (image_of W.BITS k (W.words im.old)) p ≡ 0 }
    ensures { done_of W.value result (image_of W.BITS k (W.words im.new)) ≡ step tightest (image_of W.BITS k (W.words im.old)) (asked 2 p a b c) }
{
    let g = image::sections::reg(im, k, p, b).value();
    if g == 0 {
        return Err(Refusal::NoObject);
    }
    if image::sections::links(im, k, g) <= c {
        return Err(Refusal::PastEnd);
    }
    let v = image::sections::word(im, k, g, 2 + c);
    image::sections::set_reg(im, k, p, a, v);
    Ok(v)
}

pub fn store<W: Word>(
    im: &mut [W],
    k: usize,
    p: usize,
    a: usize,
    b: usize,
    c: usize,
) -> Result<W, Refusal>
    requires sized { Sized W.BITS k (W.words im.old) }
    requires sound { Sound (image_of W.BITS k (W.words im.old)) }
    requires p_bound { (p < 16) × (a < 16) × (c < 16) }
    requires p_value { owed (image_of W.BITS k (W.words im.old)) p ≡ 0 }
    ensures { done_of W.value result (image_of W.BITS k (W.words im.new)) ≡ step tightest (image_of W.BITS k (W.words im.old)) (asked 3 p a b c) }
{
    let g = image::sections::reg(im, k, p, a).value();
    if g == 0 {
        return Err(Refusal::NoObject);
    }
    if image::sections::links(im, k, g) <= b {
        return Err(Refusal::PastEnd);
    }
    let v = image::sections::reg(im, k, p, c);
    image::sections::set_word(im, k, g, 2 + b, v);
    image::sections::set_owed(im, k, p, W::of(g / 64 + 1));
    Ok(W::of(0))
}
