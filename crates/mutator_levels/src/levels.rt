// The steps on a level word of the object in a register: read, write.
ghost use Rattle.std.specs.Prelude.{◌≡◌, ◌^◌, ◌<◌};
ghost use Rattle.model.specs.Image.{image_of, levels, owed};
ghost use Rattle.model.specs.Mutate.{tightest};
ghost use Rattle.model.specs.Steps.{step};
ghost use Rattle.theory.specs.Heap.{ObjectAt};
ghost use Rattle.theory.specs.Lines.{Sound};
ghost use Rattle.image_laws.specs.Sized.{Sized};
ghost use Rattle.request_laws.specs.Answer.{asked, done_of};

use image::word::Word;
use request_laws::Refusal;

// The number of level words of the object at g.
fn levels<W: Word>(im: &[W], k: usize, g: usize) -> usize
    requires sized { Sized W.BITS k (W.words im.now) }
    requires object_at { ObjectAt (image_of W.BITS k (W.words im.now)) g }
    ensures { result ≡ levels (image_of W.BITS k (W.words im.now)) g }
{
    let s = image::sections::word(im, k, g, 0).value();
    let n = image::sections::links(im, k, g);
    4 * s - 2 - n
}

pub fn read<W: Word>(im: &[W], k: usize, p: usize, a: usize, b: usize) -> Result<W, Refusal>
    requires sized { Sized W.BITS k (W.words im.now) }
    requires sound { Sound (image_of W.BITS k (W.words im.now)) }
    requires p_bound { (p < 16) × (a < 16) }
    requires p_value { owed (image_of W.BITS k (W.words im.now)) p ≡ 0 }
    ensures { done_of W.value result (image_of W.BITS k (W.words im.now)) ≡ step tightest (image_of W.BITS k (W.words im.now)) (asked 7 p a b 0) }
{
    let g = image::sections::reg(im, k, p, a).value();
    if g == 0 {
        return Err(Refusal::NoObject);
    }
    if levels(im, k, g) <= b {
        return Err(Refusal::PastEnd);
    }
    let n = image::sections::links(im, k, g);
    Ok(image::sections::word(im, k, g, 2 + n + b))
}

pub fn write<W: Word>(
    im: &mut [W],
    k: usize,
    p: usize,
    a: usize,
    b: usize,
    c: usize,
) -> Result<W, Refusal>
    requires sized { Sized W.BITS k (W.words im.old) }
    requires sound { Sound (image_of W.BITS k (W.words im.old)) }
    requires p_bound { (p < 16) × (a < 16) }
    requires p_value { owed (image_of W.BITS k (W.words im.old)) p ≡ 0 }
    requires c_bound { c < 2 ^ W.BITS }
    ensures { done_of W.value result (image_of W.BITS k (W.words im.new)) ≡ step tightest (image_of W.BITS k (W.words im.old)) (asked 8 p a b c) }
{
    let g = image::sections::reg(im, k, p, a).value();
    if g == 0 {
        return Err(Refusal::NoObject);
    }
    if levels(im, k, g) <= b {
        return Err(Refusal::PastEnd);
    }
    let n = image::sections::links(im, k, g);
    image::sections::set_word(im, k, g, 2 + n + b, W::of(c));
    Ok(W::of(0))
}
