// The stretches of a report, and whether each is good: number 12.
ghost use Rattle.std.specs.Prelude.{◌≡◌, ◌+◌, ◌*◌, ◌≤◌, ◌<◌, length};
ghost use Rattle.model.specs.Base.{all};
ghost use Rattle.model.specs.Image.{image_of};
ghost use Rattle.model.specs.Report.{stretch_start, stretch_length, stretch_end, lowest_start, whole_objects, good_stretch};
ghost use Rattle.theory.specs.Lines.{Sound};
ghost use Rattle.image_laws.specs.Sized.{Sized};

use image::word::Word;

pub fn start(report: &[u8], i: usize) -> usize
    requires { 4 * i + 4 ≤ length report.now }
    ensures { (result ≡ stretch_start report.now i) × (result < 65536) }
{
    little_endian::pair(report, 4 * i)
}

pub fn granules(report: &[u8], i: usize) -> usize
    requires { 4 * i + 4 ≤ length report.now }
    ensures { (result ≡ stretch_length report.now i) × (result < 65536) }
{
    little_endian::pair(report, 4 * i + 2)
}

// The granule behind the stretch.
fn end(report: &[u8], i: usize) -> usize
    requires { 4 * i + 4 ≤ length report.now }
    ensures { result ≡ stretch_end report.now i }
{
    start(report, i) + granules(report, i)
}

// Whether whole objects follow one another from granule a on for n granules.
fn is_whole<W: Word>(im: &[W], k: usize, a: usize, n: usize) -> bool
    requires sized { Sized W.BITS k (W.words im.now) }
    requires sound { Sound (image_of W.BITS k (W.words im.now)) }
    requires n_bound { a + n ≤ 64 * k }
    ensures { result ≡ whole_objects (image_of W.BITS k (W.words im.now)) n a (a + n) }
{
    let e = a + n;
    let mut g = a;
    while g < e {
        if !bits_and_cards::bits::is_start(im, k, g) {
            return false;
        }
        g += image::sections::word(im, k, g, 0).value();
    }
    g == e
}

// Stretch i, where `low` is the lowest granule at which it may start.
fn is_good<W: Word>(im: &[W], k: usize, report: &[u8], i: usize, low: usize) -> bool
    requires sized { Sized W.BITS k (W.words im.now) }
    requires sound { Sound (image_of W.BITS k (W.words im.now)) }
    requires i_in_bounds { 4 * i + 4 ≤ length report.now }
    requires low_value { low ≡ lowest_start report.now i }
    ensures { result ≡ good_stretch (image_of W.BITS k (W.words im.now)) report.now i }
{
    let a = start(report, i);
    let n = granules(report, i);
    if n == 0 {
        return false;
    }
    if a < low {
        return false;
    }
    if 64 * k < a + n {
        return false;
    }
    is_whole(im, k, a, n)
}

// The first c stretches.
pub fn all_good<W: Word>(im: &[W], k: usize, report: &[u8], c: usize) -> bool
    requires sized { Sized W.BITS k (W.words im.now) }
    requires sound { Sound (image_of W.BITS k (W.words im.now)) }
    requires c_in_bounds { 4 * c ≤ length report.now }
    ensures { result ≡ all c (good_stretch (image_of W.BITS k (W.words im.now)) report.now) }
{
    let mut low = 1;
    for i in 0..c {
        if !is_good(im, k, report, i, low) {
            return false;
        }
        low = end(report, i);
    }
    true
}
