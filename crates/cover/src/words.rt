// The marked objects of every word of mark bits, and what covers their links.
ghost use Rattle.std.specs.Prelude.{◌≡◌, ◌+◌, ◌*◌, ◌/◌, ◌<◌};
ghost use Rattle.model.specs.Image.{image_of};
ghost use Rattle.model.specs.Undamaged.{cover};
ghost use Rattle.image_laws.specs.Sized.{Sized};
ghost use Rattle.soundness_laws.specs.Tests.{wordwise};
ghost use Rattle.soundness_laws.specs.Sets.{Named};
ghost use Rattle.soundness_laws.specs.Entered.{EnteredSet};
ghost use Rattle.judge_laws.specs.Order.{Coverable, object_covered};
ghost use Rattle.judge_laws.specs.Near.{MarkedStretch};

use image::word::Word;
use sets::{SEEN, TABLE};

pub fn word_covered<W: Word>(im: &[W], k: usize, entered: &[u64], table: &[u64], w: usize) -> bool
    requires sized { Sized W.BITS k (W.words im.now) }
    requires named { Named W.BITS (image_of W.BITS k (W.words im.now)).marks table.now }
    requires coverable { Coverable k (image_of W.BITS k (W.words im.now)) }
    requires entered_set { EnteredSet k (image_of W.BITS k (W.words im.now)) entered.now }
    requires w_bound { w < 64 * k / W.BITS }
    ensures { result ≡ wordwise W.BITS (object_covered (image_of W.BITS k (W.words im.now))) w }
{
    if bits_and_cards::cards::is_dirty(im, k, w / W::CARD_BITS) {
        return true;
    }
    let mut ok = true;
    let mut left = image::sections::mark_word(im, k, w).value();
    while left != 0 {
        let j = left.trailing_zeros() as usize;
        ok &= covered_objects::objects::object_covered(im, k, entered, table, W::BITS * w + j);
        left &= !(1 << j);
    }
    ok
}

// word i, at the end of the stretch of marked granules that begins with word `from`
pub fn stretch_covered<W: Word>(
    im: &[W],
    k: usize,
    entered: &[u64],
    table: &[u64],
    from: usize,
    i: usize,
) -> bool
    requires sized { Sized W.BITS k (W.words im.now) }
    requires named { Named W.BITS (image_of W.BITS k (W.words im.now)).marks table.now }
    requires coverable { Coverable k (image_of W.BITS k (W.words im.now)) }
    requires entered_set { EnteredSet k (image_of W.BITS k (W.words im.now)) entered.now }
    requires i_bound { i < 64 * k / W.BITS }
    requires marked_stretch { MarkedStretch W.BITS (image_of W.BITS k (W.words im.now)) from (i + 1) }
    ensures { result ≡ wordwise W.BITS (object_covered (image_of W.BITS k (W.words im.now))) i }
{
    if from <= i {
        if marked_words::near::is_near(im, k, from, i) {
            return true;
        }
    }
    word_covered(im, k, entered, table, i)
}

pub fn all_covered<W: Word>(im: &[W], k: usize, entered: &[u64], table: &[u64]) -> bool
    requires sized { Sized W.BITS k (W.words im.now) }
    requires named { Named W.BITS (image_of W.BITS k (W.words im.now)).marks table.now }
    requires coverable { Coverable k (image_of W.BITS k (W.words im.now)) }
    requires entered_set { EnteredSet k (image_of W.BITS k (W.words im.now)) entered.now }
    ensures { result ≡ cover (image_of W.BITS k (W.words im.now)) }
{
    let low = bits_and_cards::bits::is_marked(im, k, 1) & bits_and_cards::bits::is_marked(im, k, 2);
    let mut from = 0;
    let mut ok = true;
    for i in 0..64 * k / W::BITS {
        if !low | (image::sections::mark_word(im, k, i).value() != W::VALUES - 1) {
            from = i + 1;
        }
        ok &= stretch_covered(im, k, entered, table, from, i);
    }
    ok
}

pub fn is_covered<W: Word>(im: &[W], k: usize) -> bool
    requires sized { Sized W.BITS k (W.words im.now) }
    requires coverable { Coverable k (image_of W.BITS k (W.words im.now)) }
    ensures { result ≡ cover (image_of W.BITS k (W.words im.now)) }
{
    if marked_words::links::all_marked(im, k) {
        return true;
    }
    let mut entered = [0; SEEN];
    entries::entered::all_once(im, k, &mut entered);
    let mut table = [0; TABLE];
    sets::note_marks(im, k, &mut table);
    all_covered(im, k, &entered, &table)
}
