// Objects of one granule, side by side from granule 1 on: a bit word full of them is tested as a whole.
ghost use Rattle.std.specs.Prelude.{◌≡◌, true, ◌+◌, ◌*◌, ◌-◌, ◌/◌, ◌%◌, ◌≤◌, ◌<◌, length};
ghost use Rattle.model.specs.Base.{all};
ghost use Rattle.model.specs.Image.{image_of};
ghost use Rattle.image_laws.specs.Sized.{Sized};
ghost use Rattle.soundness_laws.specs.Sets.{Named};
ghost use Rattle.soundness_laws.specs.Tests.{onward};
ghost use Rattle.soundness_laws.specs.Small.{small_at, SmallFrom, SmallUpto, FullUpto, Bounds, LinkBounds, put_four};

use image::word::Word;

// The object at g has one granule and at most two links, which are in order.
fn is_small<W: Word>(im: &[W], k: usize, table: &[u64], g: usize) -> bool
    requires sized { Sized W.BITS k (W.words im.now) }
    requires named { Named W.BITS (image_of W.BITS k (W.words im.now)).starts table.now }
    requires g_bound { g < 64 * k }
    ensures { result ≡ small_at (image_of W.BITS k (W.words im.now)) g }
{
    let s = image::sections::word(im, k, g, 0).value();
    let n = image::sections::links(im, k, g);
    (s == 1) & (n <= 2) & crate::first_links(im, k, table, g, n)
}

fn all_small<W: Word>(im: &[W], k: usize, table: &[u64], a: usize, e: usize) -> bool
    requires sized { Sized W.BITS k (W.words im.now) }
    requires named { Named W.BITS (image_of W.BITS k (W.words im.now)).starts table.now }
    requires e_bound { e ≤ 64 * k }
    ensures { result ≡ all (e - a) (onward a (small_at (image_of W.BITS k (W.words im.now)))) }
{
    let mut ok = true;
    for g in a..e {
        ok = ok & is_small(im, k, table, g);
    }
    ok
}

fn put_four<W: Word>(l: &mut [W], o: usize, a: W, b: W, c: W, d: W)
    requires { o + 4 ≤ length l.old }
    ensures { W.words l.new ≡ put_four (W.words l.old) o (W.value a) (W.value b) (W.value c) (W.value d) }
{
    l[o] = a;
    l[o + 1] = b;
    l[o + 2] = c;
    l[o + 3] = d;
}

// The least words of as many small objects as a bit word has granules, then the greatest.
fn note_bounds<W: Word>(bounds: &mut [W], top: W)
    requires { length bounds.old ≡ 8 * W.BITS }
    ensures { Bounds W.BITS (W.value top) W.BITS (W.words bounds.new) }
{
    let zero = W::of(0);
    let one = W::of(1);
    let two = W::of(2);
    for i in 0..W::BITS {
        put_four(bounds, 4 * i, one, zero, zero, zero);
        put_four(bounds, 4 * W::BITS + 4 * i, one, two, top, top);
    }
}

// The granules from a to the end of its bit word: their words within the bounds, or else each object by itself.
fn is_small_word<W: Word>(im: &[W], k: usize, table: &[u64], bounds: &[W], a: usize) -> bool
    requires sized { Sized W.BITS k (W.words im.now) }
    requires named { Named W.BITS (image_of W.BITS k (W.words im.now)).starts table.now }
    requires link_bounds { LinkBounds W.BITS (image_of W.BITS k (W.words im.now)) (W.words bounds.now) }
    requires width_bound { a - a % W.BITS + W.BITS ≤ 64 * k }
    ensures { result ≡ true → SmallFrom (image_of W.BITS k (W.words im.now)) a (a - a % W.BITS + W.BITS) }
{
    let w = W::BITS;
    let b = 4 * (a % w);
    let e = a - a % w + w;
    if stretches::compare::heap_within(
        im,
        k,
        4 * a,
        4 * e,
        &bounds[b..4 * w],
        &bounds[4 * w + b..8 * w],
    ) {
        return true;
    }
    all_small(im, k, table, a, e)
}

// The same for the bit words one after the other, of n that are full of starts.
fn small_words<W: Word>(im: &[W], k: usize, table: &[u64], bounds: &[W], n: usize) -> usize
    requires sized { Sized W.BITS k (W.words im.now) }
    requires named { Named W.BITS (image_of W.BITS k (W.words im.now)).starts table.now }
    requires link_bounds { LinkBounds W.BITS (image_of W.BITS k (W.words im.now)) (W.words bounds.now) }
    requires full_upto { FullUpto W.BITS k (image_of W.BITS k (W.words im.now)) n }
    ensures { SmallUpto k (image_of W.BITS k (W.words im.now)) result }
{
    let w = W::BITS;
    let mut g = 1;
    while g < w * n {
        if !is_small_word(im, k, table, bounds, g) {
            return g;
        }
        g = g - g % w + w;
    }
    g
}

// The bit words that are full of starts, from the first on; granule 0 is none, and counts as one.
fn full_words<W: Word>(im: &[W], k: usize) -> usize
    requires { Sized W.BITS k (W.words im.now) }
    ensures { FullUpto W.BITS k (image_of W.BITS k (W.words im.now)) result }
{
    let x = image::sections::start_word(im, k, 0);
    if bits_and_cards::bits::with_bit(x, 0).value() + 1 != W::VALUES {
        return 0;
    }
    let end = 64 * k / W::BITS;
    for n in 1..end {
        if image::sections::start_word(im, k, n).value() + 1 != W::VALUES {
            return n;
        }
    }
    end
}

// Where the walk begins: the granules before it, but granule 0, hold small objects.
pub fn after_small<W: Word>(im: &[W], k: usize, table: &[u64]) -> usize
    requires sized { Sized W.BITS k (W.words im.now) }
    requires named { Named W.BITS (image_of W.BITS k (W.words im.now)).starts table.now }
    ensures { SmallUpto k (image_of W.BITS k (W.words im.now)) result }
{
    let n = full_words(im, k);
    if n == 0 {
        return 1;
    }
    // Links to granules of full words are in order, up to the last. Bounds of 32 objects at most: an array's length is no matter of W.
    let last = W::of(W::BITS * n - 1);
    let mut most = [W::of(0); 256];
    let bounds = &mut most[..8 * W::BITS];
    note_bounds(bounds, last);
    small_words(im, k, table, bounds, n)
}
