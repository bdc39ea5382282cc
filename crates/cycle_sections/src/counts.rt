// The count of each card is the number of marked objects on it.
ghost use Rattle.std.specs.Prelude.{◌≡◌, ◌<◌};
ghost use Rattle.model.specs.Base.{all};
ghost use Rattle.model.specs.Image.{image_of, marks_on};
ghost use Rattle.model.specs.Undamaged.{count_ok};
ghost use Rattle.image_laws.specs.Sized.{Sized};

use image::word::Word;

// All at once: the mark bits of card c are one number.
pub fn marks_on<W: Word>(im: &[W], k: usize, c: usize) -> usize
    requires sized { Sized W.BITS k (W.words im.now) }
    requires c_lt_k { c < k }
    ensures { result ≡ marks_on (image_of W.BITS k (W.words im.now)) c }
{
    u64::count_ones(sets::card_bits(sets::mark_words(im, k), c)) as usize
}

#[tactic(auto, using(soundness_laws::proofs::Counts::count_is))]
pub fn count_ok<W: Word>(im: &[W], k: usize, c: usize) -> bool
    requires sized { Sized W.BITS k (W.words im.now) }
    requires c_lt_k { c < k }
    ensures { result ≡ count_ok (image_of W.BITS k (W.words im.now)) c }
{
    image::sections::count(im, k, c).value() == marks_on(im, k, c)
}

pub fn counts_ok<W: Word>(im: &[W], k: usize) -> bool
    requires { Sized W.BITS k (W.words im.now) }
    ensures { result ≡ all k (count_ok (image_of W.BITS k (W.words im.now))) }
{
    quantifiers::all(k, |c| count_ok(im, k, c))
}
