// Start and mark bits, by shift and mask in the words (`Word`).
ghost use Rattle.std.specs.Prelude.{◌≡◌, ◌*◌, ◌<◌};
ghost use Rattle.model.specs.Base.{test_bit, with_bit};
ghost use Rattle.model.specs.Image.{image_of, is_start, marked, set_start, set_mark};
ghost use Rattle.image_laws.specs.Sized.{Sized};
ghost use Rattle.image_laws.specs.Bits.{without_bit, clear_start};

use image::word::Word;

pub fn has_bit<W: Word>(w: W, j: usize) -> bool
    requires { j < W.BITS }
    ensures { result ≡ test_bit (W.value w) j }
{
    w.has_bit(j)
}

pub fn with_bit<W: Word>(w: W, j: usize) -> W
    requires { j < W.BITS }
    ensures { W.value result ≡ with_bit (W.value w) j }
{
    w.with_bit(j)
}

pub fn without_bit<W: Word>(w: W, j: usize) -> W
    requires { j < W.BITS }
    ensures { W.value result ≡ without_bit (W.value w) j }
{
    w.without_bit(j)
}

// Of starts and of marks apart, as the model has them: a call with the section beside the granule would be no plainer.
pub fn is_start<W: Word>(im: &[W], k: usize, g: usize) -> bool
    requires sized { Sized W.BITS k (W.words im.now) }
    requires g_bound { g < 64 * k }
    ensures { result ≡ is_start (image_of W.BITS k (W.words im.now)) g }
{
    has_bit(image::sections::start_word(im, k, g / W::BITS), g % W::BITS)
}

pub fn is_marked<W: Word>(im: &[W], k: usize, g: usize) -> bool
    requires sized { Sized W.BITS k (W.words im.now) }
    requires g_bound { g < 64 * k }
    ensures { result ≡ marked (image_of W.BITS k (W.words im.now)) g }
{
    has_bit(image::sections::mark_word(im, k, g / W::BITS), g % W::BITS)
}

pub fn set_start<W: Word>(im: &mut [W], k: usize, g: usize)
    requires sized { Sized W.BITS k (W.words im.old) }
    requires g_bound { g < 64 * k }
    ensures { image_of W.BITS k (W.words im.new) ≡ set_start (image_of W.BITS k (W.words im.old)) g }
{
    let starts = image::sections::start_word(im, k, g / W::BITS);
    let v = with_bit(starts, g % W::BITS);
    image::sections::set_start_word(im, k, g / W::BITS, v);
}

pub fn clear_start<W: Word>(im: &mut [W], k: usize, g: usize)
    requires sized { Sized W.BITS k (W.words im.old) }
    requires g_bound { g < 64 * k }
    ensures { image_of W.BITS k (W.words im.new) ≡ clear_start (image_of W.BITS k (W.words im.old)) g }
{
    let starts = image::sections::start_word(im, k, g / W::BITS);
    let v = without_bit(starts, g % W::BITS);
    image::sections::set_start_word(im, k, g / W::BITS, v);
}

pub fn set_mark<W: Word>(im: &mut [W], k: usize, g: usize)
    requires sized { Sized W.BITS k (W.words im.old) }
    requires g_bound { g < 64 * k }
    ensures { image_of W.BITS k (W.words im.new) ≡ set_mark (image_of W.BITS k (W.words im.old)) g }
{
    let marks = image::sections::mark_word(im, k, g / W::BITS);
    let v = with_bit(marks, g % W::BITS);
    image::sections::set_mark_word(im, k, g / W::BITS, v);
}
