// A pending object is settled: its links are followed. It is pending while its mark bit is 1 and its start bit 0; a card that may have
// one is listed, and its word is the rest of its list: that of the cards that wait, or that of those listed later.
ghost use Rattle.std.specs.Prelude.{◌≡◌, ◌+◌, ◌*◌, ◌/◌, ◌≤◌, ◌<◌};
ghost use Rattle.model.specs.Image.{image_of};
ghost use Rattle.image_laws.specs.Sized.{Sized};
ghost use Rattle.finish_marking_laws.specs.Follow.{headed, visited, settled, PendingWord, LinksIn};
ghost use Rattle.finish_marking_laws.specs.Marking.{Underway, SettledTo};

use image::word::Word;

// The pending objects of bit word i: its marks without its starts.
pub fn pending_word<W: Word>(im: &[W], k: usize, i: usize) -> W
    requires sized { Sized W.BITS k (W.words im.now) }
    requires i_bound { i < 64 * k / W.BITS }
    ensures { PendingWord W.BITS (image_of W.BITS k (W.words im.now)) i (W.value result) }
{
    let m = image::sections::mark_word(im, k, i).value();
    let s = image::sections::start_word(im, k, i).value();
    W::of(m & !s)
}

// The link a is followed: to nil or a marked object nothing; else the object becomes pending, and its card is listed.
pub fn visit<W: Word>(im: &mut [W], k: usize, head: usize, a: usize) -> usize
    requires sized { Sized W.BITS k (W.words im.old) }
    requires a_bound { (a < 64 * k) × (head ≤ k + 1) }
    ensures im_after { headed result (image_of W.BITS k (W.words im.new)) ≡ visited (image_of W.BITS k (W.words im.old)) head a }
    ensures upper_bound { result ≤ k + 1 }
{
    if a == 0 {
        return head;
    }
    if bits_and_cards::bits::is_marked(im, k, a) {
        return head;
    }
    bits_and_cards::bits::set_mark(im, k, a);
    bits_and_cards::bits::clear_start(im, k, a);
    let c = a / 64;
    let v = image::sections::card(im, k, c).value();
    if v != 0 {
        return head;
    }
    image::sections::set_card(im, k, c, W::of(head));
    c + 2
}

// All links of g are followed, then its start bit stands again.
pub fn settle<W: Word>(im: &mut [W], k: usize, head: usize, g: usize) -> usize
    requires sized { Sized W.BITS k (W.words im.old) }
    requires g_bound { (g < 64 * k) × (head ≤ k + 1) }
    requires links_in { LinksIn k (image_of W.BITS k (W.words im.old)) g }
    ensures im_after { headed result (image_of W.BITS k (W.words im.new)) ≡ settled (image_of W.BITS k (W.words im.old)) head g }
    ensures upper_bound { result ≤ k + 1 }
{
    let n = image::sections::links(im, k, g);
    let mut h = head;
    for i in 0..n {
        let a = image::sections::word(im, k, g, 2 + i).value();
        h = visit(im, k, h, a);
    }
    bits_and_cards::bits::set_start(im, k, g);
    h
}

// The pending objects of bit word i, the bits of x, are settled, then those that became pending in it meanwhile: so a list of
// neighbours is followed without a turn for each. None of x hangs on another: the links of the next are read while those of the one
// before are still followed.
pub fn settle_bits<W: Word>(im: &mut [W], k: usize, head: usize, i: usize, x: W) -> usize
    requires sized { Sized W.BITS k (W.words im.old) }
    requires i_bound { i < 64 * k / W.BITS }
    requires underway { Underway k (image_of W.BITS k (W.words im.old)) (W.BITS * i) head }
    requires pending_word { PendingWord W.BITS (image_of W.BITS k (W.words im.old)) i (W.value x) }
    ensures { SettledTo k (image_of W.BITS k (W.words im.old)) (W.BITS * i) head (W.BITS * i + W.BITS) (headed result (image_of W.BITS k (W.words im.new))) }
{
    let mut h = head;
    let mut left = x.value();
    while left != 0 {
        let j = left.trailing_zeros() as usize;
        h = settle(im, k, h, W::BITS * i + j);
        left = left & !(1 << j);
        if left == 0 {
            left = pending_word(im, k, i).value();
        }
    }
    h
}
