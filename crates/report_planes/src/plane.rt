// A plane of bits over the stretches of a report, and over the starts of an image: numbers 13 and 14.
ghost use Rattle.std.specs.Prelude.{◌≡◌, ◌+◌, ◌*◌, ◌/◌, ◌≤◌, ◌<◌, length};
ghost use Rattle.model.specs.Base.{any, bit};
ghost use Rattle.model.specs.Image.{image_of};
ghost use Rattle.model.specs.Report.{in_stretch};
ghost use Rattle.image_laws.specs.Sized.{Sized};
ghost use Rattle.report_laws.specs.Stretch.{Within};
ghost use Rattle.report_laws.specs.Plane.{some_in, Adds, spans, bare_bit, bare_start};

use image::word::Word;

// Whether a granule of a to a + n - 1 has its bit.
fn some_bit<W: Word>(s: &[W], a: usize, n: usize) -> bool
    requires { (a + n ≤ W.BITS * length s.now) × (a + n < 131072) }
    ensures { result ≡ any n (λ j. bit W.BITS (W.words s.now) (a + j)) }
{
    quantifiers::any(n, |j| sets::in_plane(s, a + j))
}

// Whether a granule of the first c stretches has its bit.
pub fn any_in<W: Word>(report: &[u8], c: usize, s: &[W]) -> bool
    requires { Within report.now c (W.BITS * length s.now) }
    ensures { result ≡ any c (some_in (bit W.BITS (W.words s.now)) report.now) }
{
    let mut found = false;
    for i in 0..c {
        let a = report_stretches::stretch::start(report, i);
        let n = report_stretches::stretch::granules(report, i);
        found |= some_bit(s, a, n);
    }
    found
}

// Granules a to a + n - 1 get their bits.
fn cover<W: Word>(s: &mut [W], a: usize, n: usize)
    requires { (a + n ≤ W.BITS * length s.old) × (a + n < 131072) }
    ensures { Adds W.BITS (W.words s.old) (spans a (a + n)) (W.words s.new) }
{
    for j in 0..n {
        pending_objects::planes::add(s, a + j);
    }
}

// The granules of the first c stretches get their bits.
pub fn cover_all<W: Word>(report: &[u8], c: usize, s: &mut [W])
    requires { Within report.now c (W.BITS * length s.old) }
    ensures { Adds W.BITS (W.words s.old) (λ g. any c (in_stretch report.now g)) (W.words s.new) }
{
    for i in 0..c {
        let a = report_stretches::stretch::start(report, i);
        let n = report_stretches::stretch::granules(report, i);
        cover(s, a, n);
    }
}

// Whether a bit is set in x and not in v.
fn is_bare<W: Word>(x: W, v: W) -> bool
    ensures { result ≡ any W.BITS (bare_bit (W.value x) (W.value v)) }
{
    x.value() & !v.value() != 0
}

// Whether a start of the image has no bit.
pub fn any_bare<W: Word>(im: &[W], k: usize, s: &[W]) -> bool
    requires sized { Sized W.BITS k (W.words im.now) }
    requires width_in_bounds { 64 * k / W.BITS ≤ length s.now }
    ensures { result ≡ any (64 * k) (bare_start W.BITS (image_of W.BITS k (W.words im.now)) (W.words s.now)) }
{
    let mut found = false;
    for i in 0..64 * k / W::BITS {
        found |= is_bare(image::sections::start_word(im, k, i), s[i]);
    }
    found
}
