// Links asked all at once, by the bits of the objects.
ghost use Rattle.std.specs.Prelude.{◌≡◌, ◌*◌, ◌/◌};
ghost use Rattle.model.specs.Base.{all};
ghost use Rattle.model.specs.Image.{image_of};
ghost use Rattle.image_laws.specs.Sized.{Sized};
ghost use Rattle.judge_laws.specs.Links.{same_word};

use image::word::Word;

// Whether every object is marked: then no link leads to an unmarked one.
pub fn all_marked<W: Word>(im: &[W], k: usize) -> bool
    requires { Sized W.BITS k (W.words im.now) }
    ensures { result ≡ all (64 * k / W.BITS) (same_word (image_of W.BITS k (W.words im.now))) }
{
    for i in 0..64 * k / W::BITS {
        let s = image::sections::start_word(im, k, i).value();
        if s != image::sections::mark_word(im, k, i).value() {
            return false;
        }
    }
    true
}
