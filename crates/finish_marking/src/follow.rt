// Links followed from pending objects on, card by card, until no card is listed.
ghost use Rattle.std.specs.Prelude.{◌+◌, ◌*◌, ◌/◌, ◌<◌};
ghost use Rattle.model.specs.Image.{image_of};
ghost use Rattle.image_laws.specs.Sized.{Sized};
ghost use Rattle.finish_marking_laws.specs.Follow.{headed, World, Listed, Nowhere, Followed};
ghost use Rattle.finish_marking_laws.specs.Marking.{Underway, SettledTo};

use image::word::Word;

// The pending objects of bit word i are settled.
pub fn settle_word<W: Word>(im: &mut [W], k: usize, head: usize, i: usize) -> usize
    requires sized { Sized W.BITS k (W.words im.old) }
    requires i_bound { i < 64 * k / W.BITS }
    requires underway { Underway k (image_of W.BITS k (W.words im.old)) (W.BITS * i) head }
    ensures { SettledTo k (image_of W.BITS k (W.words im.old)) (W.BITS * i) head (W.BITS * i + W.BITS) (headed result (image_of W.BITS k (W.words im.new))) }
{
    let x = settled_objects::settling::pending_word(im, k, i);
    if x.value() == 0 {
        return head;
    }
    settled_objects::settling::settle_bits(im, k, head, i, x)
}

// The pending objects of card c are settled, bit word by bit word.
pub fn settle_card<W: Word>(im: &mut [W], k: usize, head: usize, c: usize) -> usize
    requires sized { Sized W.BITS k (W.words im.old) }
    requires c_lt_k { c < k }
    requires underway { Underway k (image_of W.BITS k (W.words im.old)) (64 * c) head }
    ensures { SettledTo k (image_of W.BITS k (W.words im.old)) (64 * c) head (64 * c + 64) (headed result (image_of W.BITS k (W.words im.new))) }
{
    let mut h = head;
    for i in 0..W::CARD_BITS {
        h = settle_word(im, k, h, W::CARD_BITS * c + i);
    }
    h
}

// From the pending objects on, until no card is listed. Cards wait in turn: those that are listed while a card is taken come after
// all that were listed before, so that many of their objects are pending by then.
pub fn mark_all<W: Word>(im: &mut [W], k: usize, head: usize)
    requires sized { Sized W.BITS k (W.words im.old) }
    requires world { World k (image_of W.BITS k (W.words im.old)) }
    requires listed { Listed (image_of W.BITS k (W.words im.old)) Nowhere head 1 }
    ensures { Followed k (image_of W.BITS k (W.words im.old)) (image_of W.BITS k (W.words im.new)) }
{
    let mut h = head;
    let mut later = 1;
    while h != 1 {
        let c = h - 2;
        h = image::sections::card(im, k, c).value();
        image::sections::set_card(im, k, c, W::of(0));
        later = settle_card(im, k, later, c);
        if h == 1 {
            h = later;
            later = 1;
        }
    }
}
