// Objects that become pending: each from the moment at which it is first seen until its links are followed.
// The hints are a stack of objects that may be pending. One that finds no room there is spilled: the plane alone has it, until a refill.
ghost use Rattle.std.specs.Prelude.{◌*◌, ◌/◌, ◌≤◌, ◌<◌, length};
ghost use Rattle.model.specs.Image.{image_of, most_cards};
ghost use Rattle.theory.specs.Lines.{Sound};
ghost use Rattle.image_laws.specs.Sized.{Sized};
ghost use Rattle.search_laws.specs.Search.{Planes, Visited, Hinted, Refilled, Search, Held};

use image::word::Word;

// The link a is followed: the object is seen; for the first time: it becomes pending, and a hint if there is room.
pub fn visit<W: Word>(s: &mut [W], k: usize, hints: &mut [W], n: usize, a: usize) -> usize
    requires planes { Planes W.BITS k (W.words s.old) }
    requires a_bound { a < 64 * k }
    requires n_in_bounds { n ≤ length hints.old }
    ensures visited { Visited W.BITS k (W.words s.old) n a (W.words s.new) result }
    ensures upper_bound { result ≤ length hints.old }
{
    if sets::in_plane(s, a) {
        return n;
    }
    crate::planes::add(s, a);
    crate::planes::add(s, 64 * k + a);
    if n < hints.len() {
        hints[n] = W::of(a);
        return n + 1;
    }
    n
}

// The granules of word i, the bits of word, become hints, while there is room.
fn hint_word<W: Word>(hints: &mut [W], n: usize, i: usize, word: W) -> usize
    requires n_in_bounds { n < length hints.old }
    requires i_bound { i < 64 * most_cards W.BITS / W.BITS }
    ensures hinted { Hinted W.BITS i (W.value word) (W.words hints.old) n (W.words hints.new) result }
    ensures upper_bound { result ≤ length hints.old }
{
    let mut x = word.value();
    let mut h = n;
    while x != 0 {
        if h == hints.len() {
            return h;
        }
        let j = crate::planes::lowest(x);
        hints[h] = W::of(W::BITS * i + j);
        h += 1;
        x &= x - 1;
    }
    h
}

// Pending granules become hints, the lowest first, while there is room. There is no hint only if nothing is pending.
pub fn refill<W: Word>(s: &[W], k: usize, hints: &mut [W]) -> usize
    requires planes { Planes W.BITS k (W.words s.now) }
    requires in_bounds { 1 ≤ length hints.old }
    ensures refilled { Refilled W.BITS k (W.words s.now) (W.words hints.new) result }
    ensures upper_bound { result ≤ length hints.old }
{
    let p = 64 * k / W::BITS;
    let mut n = 0;
    for i in 0..p {
        n = hint_word(hints, n, i, s[p + i]);
        if n == hints.len() {
            return n;
        }
    }
    n
}

// What registers hold is seen.
pub fn hold_all<W: Word>(im: &[W], k: usize, s: &mut [W], hints: &mut [W]) -> usize
    requires sized { Sized W.BITS k (W.words im.now) }
    requires sound { Sound (image_of W.BITS k (W.words im.now)) }
    requires search { Search W.BITS k (image_of W.BITS k (W.words im.now)) (W.words s.old) }
    ensures held { Held W.BITS k (image_of W.BITS k (W.words im.now)) (W.words s.new) }
    ensures upper_bound { result ≤ length hints.old }
{
    let mut h = 0;
    for i in 0..256 {
        let a = image::sections::reg_word(im, k, i).value();
        h = visit(s, k, hints, h, a);
    }
    h
}
