// The pieces of the heap, objects and runs, whatever starts lie inside.
ghost use Rattle.std.specs.Prelude.{◌≡◌, ◌+◌, ◌*◌, ◌-◌, ◌≤◌, ◌<◌, take, drop};
ghost use Rattle.model.specs.Base.{zeroes};
ghost use Rattle.model.specs.Image.{image_of, is_start};
ghost use Rattle.image_laws.specs.Sized.{Sized};
ghost use Rattle.soundness_laws.specs.Tests.{object_ok, run_ok, piece_ok, next_run};

use image::section::Section;
use image::word::Word;

// That it has a granule at all follows from the room for its links.
pub fn object_ok<W: Word>(im: &[W], k: usize, g: usize) -> bool
    requires sized { Sized W.BITS k (W.words im.now) }
    requires g_bound { g < 64 * k }
    ensures { result ≡ object_ok (image_of W.BITS k (W.words im.now)) g }
{
    let s = image::sections::word(im, k, g, 0).value();
    let n = image::sections::word(im, k, g, 1).value();
    (s <= 1024) & (g + s <= 64 * k) & (n + 2 <= 4 * s)
}

// The words of a run behind its first two are 0, granule by granule.
fn zero_rest<W: Word>(im: &[W], k: usize, g: usize, s: usize) -> bool
    requires sized { Sized W.BITS k (W.words im.now) }
    requires le_s { (1 ≤ s) × (g + s ≤ 64 * k) }
    ensures { result ≡ zeroes (take (4 * s - 2) (drop (4 * g + 2) (image_of W.BITS k (W.words im.now)).heap)) }
{
    let mut ok = stretches::parts::zero_part(im, k, Section::Heap, 4 * g + 2, 4 * g + 4);
    for i in 1..s {
        let a = 4 * (g + i);
        ok = ok & stretches::parts::zero_part(im, k, Section::Heap, a, a + 4);
    }
    ok
}

pub fn run_ok<W: Word>(im: &[W], k: usize, g: usize, next: usize, run: bool) -> bool
    requires sized { Sized W.BITS k (W.words im.now) }
    requires g_bound { g < 64 * k }
    ensures { result ≡ run_ok (image_of W.BITS k (W.words im.now)) g next run }
{
    let s = image::sections::word(im, k, g, 0).value();
    let fits = (!run) & (g == next) & (1 <= s) & (g + s <= 64 * k);
    if !fits {
        return false;
    }
    // Most runs are short, and a loop over many words takes long to begin.
    if s <= 8 {
        return zero_rest(im, k, g, s);
    }
    stretches::parts::zero_part(im, k, Section::Heap, 4 * g + 2, 4 * g + 4 * s)
}

pub fn piece_ok<W: Word>(im: &[W], k: usize, g: usize, object: bool, next: usize, run: bool) -> bool
    requires sized { Sized W.BITS k (W.words im.now) }
    requires g_bound { g < 64 * k }
    requires object_value { object ≡ is_start (image_of W.BITS k (W.words im.now)) g }
    ensures { result ≡ piece_ok (image_of W.BITS k (W.words im.now)) g next run }
{
    if object {
        return object_ok(im, k, g);
    }
    run_ok(im, k, g, next, run)
}

pub fn next_run<W: Word>(im: &[W], k: usize, g: usize, object: bool, next: usize) -> usize
    requires sized { Sized W.BITS k (W.words im.now) }
    requires g_bound { g < 64 * k }
    requires object_value { object ≡ is_start (image_of W.BITS k (W.words im.now)) g }
    ensures { result ≡ next_run (image_of W.BITS k (W.words im.now)) g next }
{
    if object {
        return next;
    }
    image::sections::word(im, k, g, 1).value()
}
