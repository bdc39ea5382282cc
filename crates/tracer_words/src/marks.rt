// The next marked object of a card: trailing zeros of its remaining mark bits.
ghost use Rattle.std.specs.Prelude.{◌≡◌, ◌+◌, ◌*◌, ◌-◌, ◌≤◌, ◌<◌};
ghost use Rattle.model.specs.Image.{image_of};
ghost use Rattle.model.specs.Collect.{next_marked};
ghost use Rattle.image_laws.specs.Sized.{Sized};
ghost use Rattle.tracers_laws.specs.Marks.{CardMarks, one_more};

use image::word::Word;

// The 64 mark bits of card c, word by word.
pub fn card_marks<W: Word>(im: &[W], k: usize, c: usize) -> usize
    requires sized { Sized W.BITS k (W.words im.now) }
    requires c_lt_k { c < k }
    ensures { CardMarks (image_of W.BITS k (W.words im.now)) c result }
{
    let mut marks = 0;
    for i in 0..W::CARD_BITS {
        let w = image::sections::mark_word(im, k, W::CARD_BITS * c + i).value();
        marks |= w << (W::BITS * i);
    }
    marks
}

// The first marked granule from `from` on that lies on card c - 1.
#[tactic(auto, using(tracers_laws::proofs::Marks::next_past, tracers_laws::proofs::Marks::next_none, tracers_laws::proofs::Marks::next_found))]
pub fn next_marked<W: Word>(im: &[W], k: usize, from: usize, c: usize) -> Option<usize>
    requires sized { Sized W.BITS k (W.words im.now) }
    requires c_le_k { (c ≤ k) × (64 * c ≤ from + 64) }
    ensures { one_more result ≡ next_marked (image_of W.BITS k (W.words im.now)) (64 * c - from) from }
{
    if 64 * c <= from {
        return None;
    }
    let left = card_marks(im, k, from / 64) >> (from % 64);
    if left == 0 {
        return None;
    }
    Some(from + left.trailing_zeros() as usize)
}
