// Marks stand only on starts.
ghost use Rattle.std.specs.Prelude.{◌≡◌};
ghost use Rattle.model.specs.Base.{all};
ghost use Rattle.model.specs.Image.{image_of, granules};
ghost use Rattle.model.specs.Undamaged.{mark_ok};
ghost use Rattle.image_laws.specs.Sized.{Sized};

use image::word::Word;

pub fn marks_ok<W: Word>(im: &[W], k: usize) -> bool
    requires { Sized W.BITS k (W.words im.now) }
    ensures { result ≡ all (granules (image_of W.BITS k (W.words im.now))) (mark_ok (image_of W.BITS k (W.words im.now))) }
{
    let marks = sets::mark_words(im, k);
    let starts = sets::start_words(im, k);
    let mut bad: u64 = 0;
    for c in 0..k {
        let m = sets::card_bits(marks, c);
        let s = sets::card_bits(starts, c);
        bad |= m & !s;
    }
    bad == 0
}
