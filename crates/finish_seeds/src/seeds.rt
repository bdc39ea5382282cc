// The objects whose links a finish follows first become pending: marked ones that are entered, in hand, on a card in hand or on a
// dirty card lose their start bits; unmarked ones in registers are marked, too.
ghost use Rattle.std.specs.Prelude.{◌*◌, ◌<◌};
ghost use Rattle.model.specs.Base.{nth};
ghost use Rattle.model.specs.Image.{image_of};
ghost use Rattle.image_laws.specs.Sized.{Sized};
ghost use Rattle.image_laws.specs.Digits.{mark_bit};
ghost use Rattle.finish_marking_laws.specs.Seeds.{Bared, Opened, EnteredAt, HandAt, DirtyAt, HeldAt, Upto, EntriesIn, HandsIn, RegsIn, ListedAll};

use image::word::Word;

// ---- what registers hold

// The object in word i of the registers, if it is one and not marked.
pub fn hold<W: Word>(im: &mut [W], k: usize, i: usize)
    requires sized { Sized W.BITS k (W.words im.old) }
    requires i_bound { i < 256 }
    requires i_bound_2 { nth (image_of W.BITS k (W.words im.old)).regs i < 64 * k }
    ensures { Opened (image_of W.BITS k (W.words im.old)) (image_of W.BITS k (W.words im.new)) (HeldAt (image_of W.BITS k (W.words im.old)).regs (mark_bit (image_of W.BITS k (W.words im.old))) i) }
{
    let a = image::sections::reg_word(im, k, i).value();
    if a == 0 {
        return;
    }
    if bits_and_cards::bits::is_marked(im, k, a) {
        return;
    }
    bits_and_cards::bits::set_mark(im, k, a);
    bits_and_cards::bits::clear_start(im, k, a);
}

// ---- all of them

pub fn open_entries<W: Word>(im: &mut [W], k: usize)
    requires sized { Sized W.BITS k (W.words im.old) }
    requires entries_in { EntriesIn k (image_of W.BITS k (W.words im.old)).packets }
    ensures { Bared (image_of W.BITS k (W.words im.old)) (image_of W.BITS k (W.words im.new)) (Upto (EnteredAt (image_of W.BITS k (W.words im.old)).packets) 1024) }
{
    for i in 0..1024 {
        opened_cards::opening::open_entry(im, k, i);
    }
}

pub fn open_hands<W: Word>(im: &mut [W], k: usize)
    requires sized { Sized W.BITS k (W.words im.old) }
    requires hands_in { HandsIn k (image_of W.BITS k (W.words im.old)).tracers }
    ensures { Bared (image_of W.BITS k (W.words im.old)) (image_of W.BITS k (W.words im.new)) (Upto (HandAt (image_of W.BITS k (W.words im.old)).tracers (mark_bit (image_of W.BITS k (W.words im.old)))) 8) }
{
    for t in 0..8 {
        opened_cards::opening::open_hand(im, k, t);
    }
}

pub fn open_dirties<W: Word>(im: &mut [W], k: usize)
    requires { Sized W.BITS k (W.words im.old) }
    ensures { Bared (image_of W.BITS k (W.words im.old)) (image_of W.BITS k (W.words im.new)) (Upto (DirtyAt (image_of W.BITS k (W.words im.old)).cards (mark_bit (image_of W.BITS k (W.words im.old)))) k) }
{
    for c in 0..k {
        opened_cards::opening::open_dirty(im, k, c);
    }
}

pub fn hold_all<W: Word>(im: &mut [W], k: usize)
    requires sized { Sized W.BITS k (W.words im.old) }
    requires regs_in { RegsIn k (image_of W.BITS k (W.words im.old)).regs }
    ensures { Opened (image_of W.BITS k (W.words im.old)) (image_of W.BITS k (W.words im.new)) (Upto (HeldAt (image_of W.BITS k (W.words im.old)).regs (mark_bit (image_of W.BITS k (W.words im.old)))) 256) }
{
    for i in 0..256 {
        hold(im, k, i);
    }
}

// Every card is listed, the last first; returns the head of the list.
pub fn list_all<W: Word>(im: &mut [W], k: usize) -> usize
    requires { Sized W.BITS k (W.words im.old) }
    ensures { ListedAll k (image_of W.BITS k (W.words im.old)) (image_of W.BITS k (W.words im.new)) result }
{
    for c in 0..k {
        image::sections::set_card(im, k, c, W::of(c + 1));
    }
    k + 1
}
