// A gap, what lies between two kept objects or before the first, becomes a free run.
ghost use Rattle.std.specs.Prelude.{◌≡◌, ◌+◌, ◌*◌, ◌-◌, ◌≤◌, ◌<◌};
ghost use Rattle.model.specs.Image.{image_of, with_heap};
ghost use Rattle.image_laws.specs.Sized.{Sized};
ghost use Rattle.image_laws.specs.Clearing.{zeroed};
ghost use Rattle.finish_laws.specs.Gaps.{Within, edged, head_at, run_from, gap, kept_at};

use image::word::Word;
use runs_laws::Free;

// The first granule of the lowest kept object so far, and the free granules behind it.
#[derive(Clone, Copy)]
pub struct Edge {
    pub start: usize,
    pub free: Free,
}

// The words of granule a, the first of a run.
pub fn set_head<W: Word>(im: &mut [W], k: usize, a: usize, length: W, next: W)
    requires sized { Sized W.BITS k (W.words im.old) }
    requires a_bound { a < 64 * k }
    ensures { image_of W.BITS k (W.words im.new) ≡ head_at (image_of W.BITS k (W.words im.old)) a (W.value length) (W.value next) }
{
    image::sections::set_word(im, k, a, 0, length);
    image::sections::set_word(im, k, a, 1, next);
    image::sections::set_word(im, k, a, 2, W::of(0));
    image::sections::set_word(im, k, a, 3, W::of(0));
}

// The granules behind a, up to e, are cleared.
pub fn clear_behind<W: Word>(im: &mut [W], k: usize, a: usize, e: usize)
    requires sized { Sized W.BITS k (W.words im.old) }
    requires a_lt_e { (a < e) × (e ≤ 64 * k) }
    ensures { image_of W.BITS k (W.words im.new) ≡ with_heap (image_of W.BITS k (W.words im.old)) (zeroed (4 * a + 4) (4 * e) (image_of W.BITS k (W.words im.old)).heap) }
{
    if a + 1 < e {
        stretches::clearing::clear_heap(im, k, 4 * a + 4, 4 * e);
    }
}

// Granules a to e become a run, the first one. Its first granule is written by itself: many runs have no other.
pub fn run_at<W: Word>(im: &mut [W], k: usize, a: usize, e: usize)
    requires sized { Sized W.BITS k (W.words im.old) }
    requires a_lt_e { (a < e) × (e ≤ 64 * k) }
    ensures { image_of W.BITS k (W.words im.new) ≡ run_from (image_of W.BITS k (W.words im.old)) a e }
{
    let next = image::sections::first_run(im, k);
    set_head(im, k, a, W::of(e - a), next);
    clear_behind(im, k, a, e);
    image::sections::set_first_run(im, k, W::of(a));
}

// What lies between a and e, if anything, becomes a run; returns its granules.
pub fn close_gap<W: Word>(im: &mut [W], k: usize, a: usize, e: usize) -> usize
    requires sized { Sized W.BITS k (W.words im.old) }
    requires e_bound { e ≤ 64 * k }
    ensures im_after { image_of W.BITS k (W.words im.new) ≡ gap (image_of W.BITS k (W.words im.old)) a e }
    ensures value { result ≡ e - a }
{
    if a < e {
        run_at(im, k, a, e);
        return e - a;
    }
    0
}

// The kept object at h. Where the next one starts right behind h there is no gap, and the size is not read.
pub fn keep_at<W: Word>(im: &mut [W], k: usize, h: usize, s: Edge) -> Edge
    requires sized { Sized W.BITS k (W.words im.old) }
    requires h_bound { (h < 64 * k) × Within k s.start s.free × (h ≤ s.start) }
    ensures im_after { edged result.start result.free (image_of W.BITS k (W.words im.new)) ≡ kept_at h (edged s.start s.free (image_of W.BITS k (W.words im.old))) }
    ensures start_value { (result.start ≡ h) × Within k result.start result.free }
{
    let e = s.start;
    let f = s.free;
    if e == h + 1 {
        return Edge { start: h, free: f };
    }
    let size = image::sections::word(im, k, h, 0).value();
    let n = close_gap(im, k, h + size, e);
    Edge {
        start: h,
        free: runs::granules::grow(f, n),
    }
}
