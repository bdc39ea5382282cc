// Links followed from pending objects on.
ghost use Rattle.std.specs.Prelude.{◌≡◌, ◌+◌, ◌*◌, ◌/◌, ◌≤◌, ◌<◌, length};
ghost use Rattle.model.specs.Image.{image_of};
ghost use Rattle.theory.specs.Lines.{Sound};
ghost use Rattle.image_laws.specs.Sized.{Sized};
ghost use Rattle.search_laws.specs.Search.{pending, LastPending, NonePending, Search, to_do, Goes, ChainBits};

use image::word::Word;

// All links of g are followed, then g is pending no more.
fn settle<W: Word>(im: &[W], k: usize, s: &mut [W], hints: &mut [W], n: usize, g: usize) -> usize
    requires sized { Sized W.BITS k (W.words im.now) }
    requires sound { Sound (image_of W.BITS k (W.words im.now)) }
    requires search { Search W.BITS k (image_of W.BITS k (W.words im.now)) (W.words s.old) }
    requires g_bound { (g < 64 * k) × (pending W.BITS k (W.words s.old) g ≡ 1) }
    requires n_in_bounds { n ≤ length hints.old }
    ensures goes { Goes W.BITS k (image_of W.BITS k (W.words im.now)) (W.words s.old) (W.words s.new) 1 }
    ensures result_bound { to_do W.BITS k (W.words s.new) + result < to_do W.BITS k (W.words s.old) + n }
    ensures upper_bound { result ≤ length hints.old }
{
    let c = image::sections::links(im, k, g);
    let mut h = n;
    for i in 0..c {
        let a = image::sections::word(im, k, g, 2 + i).value();
        h = pending_objects::hints::visit(s, k, hints, h, a);
    }
    pending_objects::planes::take_out(s, 64 * k + g);
    h
}

// The last hint: its object is settled if it is pending.
fn settle_hint<W: Word>(im: &[W], k: usize, s: &mut [W], hints: &mut [W], n: usize) -> usize
    requires sized { Sized W.BITS k (W.words im.now) }
    requires sound { Sound (image_of W.BITS k (W.words im.now)) }
    requires search { Search W.BITS k (image_of W.BITS k (W.words im.now)) (W.words s.old) }
    requires le_n { (1 ≤ n) × (n ≤ length hints.old) }
    ensures goes { Goes W.BITS k (image_of W.BITS k (W.words im.now)) (W.words s.old) (W.words s.new) 0 }
    ensures result_bound { to_do W.BITS k (W.words s.new) + result < to_do W.BITS k (W.words s.old) + n }
    ensures upper_bound { result ≤ length hints.old }
{
    let h = n - 1;
    let g = hints[h].value();
    if 64 * k <= g {
        return h;
    }
    if sets::in_plane(s, 64 * k + g) {
        return settle(im, k, s, hints, h, g);
    }
    h
}

// The objects that hints name, until there is no hint.
fn drain<W: Word>(im: &[W], k: usize, s: &mut [W], hints: &mut [W], n: usize)
    requires sized { Sized W.BITS k (W.words im.now) }
    requires sound { Sound (image_of W.BITS k (W.words im.now)) }
    requires search { Search W.BITS k (image_of W.BITS k (W.words im.now)) (W.words s.old) }
    requires n_in_bounds { n ≤ length hints.old }
    ensures { Goes W.BITS k (image_of W.BITS k (W.words im.now)) (W.words s.old) (W.words s.new) 0 }
{
    let mut h = n;
    while h != 0 {
        h = settle_hint(im, k, s, hints, h);
    }
}

// The object that the last hint names is settled, then those that the other hints name.
fn pass<W: Word>(im: &[W], k: usize, s: &mut [W], hints: &mut [W], n: usize)
    requires sized { Sized W.BITS k (W.words im.now) }
    requires sound { Sound (image_of W.BITS k (W.words im.now)) }
    requires search { Search W.BITS k (image_of W.BITS k (W.words im.now)) (W.words s.old) }
    requires le_n { (1 ≤ n) × (n ≤ length hints.old) }
    requires last_pending { LastPending W.BITS k (W.words s.old) (W.words hints.old) n }
    ensures { Goes W.BITS k (image_of W.BITS k (W.words im.now)) (W.words s.old) (W.words s.new) 1 }
{
    let g = hints[n - 1].value();
    let h = settle(im, k, s, hints, n - 1, g);
    drain(im, k, s, hints, h);
}

// Until nothing is pending.
fn follow_all<W: Word>(im: &[W], k: usize, s: &mut [W], hints: &mut [W])
    requires sized { Sized W.BITS k (W.words im.now) }
    requires sound { Sound (image_of W.BITS k (W.words im.now)) }
    requires search { Search W.BITS k (image_of W.BITS k (W.words im.now)) (W.words s.old) }
    requires in_bounds { 1 ≤ length hints.old }
    ensures goes { Goes W.BITS k (image_of W.BITS k (W.words im.now)) (W.words s.old) (W.words s.new) 0 }
    ensures none_pending { NonePending W.BITS k (W.words s.new) }
{
    let mut h = pending_objects::hints::refill(s, k, hints);
    while h != 0 {
        pass(im, k, s, hints, h);
        h = pending_objects::hints::refill(s, k, hints);
    }
}

// The planes may hold anything at entry.
pub fn reach_with<W: Word>(im: &[W], k: usize, s: &mut [W], hints: &mut [W])
    requires sized { Sized W.BITS k (W.words im.now) }
    requires sound { Sound (image_of W.BITS k (W.words im.now)) }
    requires s_len { length s.old ≡ 2 * (64 * k / W.BITS) }
    requires in_bounds { 1 ≤ length hints.old }
    ensures { ChainBits W.BITS k (image_of W.BITS k (W.words im.now)) (W.words s.new) }
{
    stretches::clearing::clear(s);
    pending_objects::planes::add(s, 0);
    let n = pending_objects::hints::hold_all(im, k, s, hints);
    drain(im, k, s, hints, n);
    follow_all(im, k, s, hints);
}
