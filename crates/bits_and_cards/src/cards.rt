// Cards: whether one is dirty, one that turns dirty, and an object marked and counted on one.
ghost use Rattle.std.specs.Prelude.{◌≡◌, ◌*◌, ◌/◌, ◌<◌};
ghost use Rattle.model.specs.Image.{image_of, dirty, dirty_state, dirty_card, card_count, mark_object};
ghost use Rattle.image_laws.specs.Sized.{Sized};

use image::word::Word;

pub fn is_dirty<W: Word>(im: &[W], k: usize, c: usize) -> bool
    requires sized { Sized W.BITS k (W.words im.now) }
    requires c_lt_k { c < k }
    ensures { result ≡ dirty (image_of W.BITS k (W.words im.now)) c }
{
    let x = image::sections::card(im, k, c).value();
    (x == 1) | (x == 3)
}

// "0 to 1, 2 to 3; 1 and 3 stay"
fn dirtied<W: Word>(x: W) -> W
    ensures { W.value result ≡ dirty_state (W.value x) }
{
    match x.value() {
        0 => W::of(1),
        1 => W::of(1),
        _ => W::of(3),
    }
}

pub fn dirty_card<W: Word>(im: &mut [W], k: usize, c: usize)
    requires sized { Sized W.BITS k (W.words im.old) }
    requires c_lt_k { c < k }
    ensures { image_of W.BITS k (W.words im.new) ≡ dirty_card (image_of W.BITS k (W.words im.old)) c }
{
    let x = dirtied(image::sections::card(im, k, c));
    image::sections::set_card(im, k, c, x);
}

// An object that is not marked is not counted, so the count of its card is below the number of its granules.
pub fn mark_object<W: Word>(im: &mut [W], k: usize, g: usize)
    requires sized { Sized W.BITS k (W.words im.old) }
    requires g_bound { g < 64 * k }
    requires g_bound_2 { card_count (image_of W.BITS k (W.words im.old)) (g / 64) < 64 }
    ensures { image_of W.BITS k (W.words im.new) ≡ mark_object (image_of W.BITS k (W.words im.old)) g }
{
    let n = image::sections::count(im, k, g / 64).value();
    crate::bits::set_mark(im, k, g);
    image::sections::set_count(im, k, g / 64, W::of(n + 1));
}
