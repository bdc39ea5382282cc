// Marked objects become pending: they lose their start bits.
ghost use Rattle.std.specs.Prelude.{◌+◌, ◌*◌, ◌/◌, ◌%◌, ◌≤◌, ◌<◌};
ghost use Rattle.model.specs.Base.{nth};
ghost use Rattle.model.specs.Image.{image_of};
ghost use Rattle.image_laws.specs.Sized.{Sized};
ghost use Rattle.image_laws.specs.Digits.{mark_bit};
ghost use Rattle.finish_marking_laws.specs.Seeds.{Bared, Refers, WordAt, CardAt, EnteredAt, HandAt, DirtyAt};

use image::word::Word;

// The object a, if it is one, loses its start bit.
pub fn open_one<W: Word>(im: &mut [W], k: usize, a: usize)
    requires sized { Sized W.BITS k (W.words im.old) }
    requires a_bound { a < 64 * k }
    ensures { Bared (image_of W.BITS k (W.words im.old)) (image_of W.BITS k (W.words im.new)) (Refers a) }
{
    if a == 0 {
        return;
    }
    bits_and_cards::bits::clear_start(im, k, a);
}

// The marked granules of bit word i lose their start bits.
pub fn open_word<W: Word>(im: &mut [W], k: usize, i: usize)
    requires sized { Sized W.BITS k (W.words im.old) }
    requires i_bound { i < 64 * k / W.BITS }
    ensures { Bared (image_of W.BITS k (W.words im.old)) (image_of W.BITS k (W.words im.new)) (WordAt W.BITS (mark_bit (image_of W.BITS k (W.words im.old))) i) }
{
    let m = image::sections::mark_word(im, k, i).value();
    let s = image::sections::start_word(im, k, i).value();
    image::sections::set_start_word(im, k, i, W::of(s & !m));
}

// The marked granules of card c lose their start bits.
pub fn open_card<W: Word>(im: &mut [W], k: usize, c: usize)
    requires sized { Sized W.BITS k (W.words im.old) }
    requires c_lt_k { c < k }
    ensures { Bared (image_of W.BITS k (W.words im.old)) (image_of W.BITS k (W.words im.new)) (CardAt (mark_bit (image_of W.BITS k (W.words im.old))) c) }
{
    for i in 0..W::CARD_BITS {
        open_word(im, k, W::CARD_BITS * c + i);
    }
}

// Word i of the packets, if it is an entry.
pub fn open_entry<W: Word>(im: &mut [W], k: usize, i: usize)
    requires sized { Sized W.BITS k (W.words im.old) }
    requires i_bound { i < 1024 }
    requires i_bound_2 { 2 ≤ i % 32 → nth (image_of W.BITS k (W.words im.old)).packets i < 64 * k }
    ensures { Bared (image_of W.BITS k (W.words im.old)) (image_of W.BITS k (W.words im.new)) (EnteredAt (image_of W.BITS k (W.words im.old)).packets i) }
{
    if i % 32 < 2 {
        return;
    }
    let a = image::sections::packet_word(im, k, i).value();
    open_one(im, k, a);
}

// The object and the card in tracer t's hand.
pub fn open_hand<W: Word>(im: &mut [W], k: usize, t: usize)
    requires sized { Sized W.BITS k (W.words im.old) }
    requires t_bound { t < 8 }
    requires t_bound_2 { (nth (image_of W.BITS k (W.words im.old)).tracers (8 * t + 2) < 64 * k) × (nth (image_of W.BITS k (W.words im.old)).tracers (8 * t + 4) ≤ k) }
    ensures { Bared (image_of W.BITS k (W.words im.old)) (image_of W.BITS k (W.words im.new)) (HandAt (image_of W.BITS k (W.words im.old)).tracers (mark_bit (image_of W.BITS k (W.words im.old))) t) }
{
    let c = image::sections::tracer_word(im, k, 8 * t + 4).value();
    let a = image::sections::tracer_word(im, k, 8 * t + 2).value();
    open_one(im, k, a);
    if c == 0 {
        return;
    }
    open_card(im, k, c - 1);
}

// Card c, if it is dirty.
pub fn open_dirty<W: Word>(im: &mut [W], k: usize, c: usize)
    requires sized { Sized W.BITS k (W.words im.old) }
    requires c_lt_k { c < k }
    ensures { Bared (image_of W.BITS k (W.words im.old)) (image_of W.BITS k (W.words im.new)) (DirtyAt (image_of W.BITS k (W.words im.old)).cards (mark_bit (image_of W.BITS k (W.words im.old))) c) }
{
    if bits_and_cards::cards::is_dirty(im, k, c) {
        open_card(im, k, c);
    }
}
