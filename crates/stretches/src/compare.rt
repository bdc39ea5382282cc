// Parts of the slice held to bounds as a whole, with no branch on a single word.
ghost use Rattle.std.specs.Prelude.{◌≡◌, ◌*◌, ◌-◌, ◌≤◌, length, take, drop};
ghost use Rattle.model.specs.Image.{image_of};
ghost use Rattle.image_laws.specs.Sized.{Sized};
ghost use Rattle.image_laws.specs.Compare.{within, near};

use image::word::Word;

// Each word of s lies between those of low and high at its place. Two lists of bounds, not one of pairs, so that they are compared many at a time.
pub fn are_within<W: Word>(s: &[W], low: &[W], high: &[W]) -> bool
    requires { (length s.now ≤ length low.now) × (length s.now ≤ length high.now) }
    ensures { result ≡ within (W.words low.now) (W.words high.now) (W.words s.now) }
{
    let mut ok = true;
    for i in 0..s.len() {
        let x = s[i].value();
        ok = ok & (low[i].value() <= x) & (x <= high[i].value());
    }
    ok
}

// Each word of s is at most 2, or not below from and below the end.
pub fn are_near<W: Word>(s: &[W], from: W, end: W) -> bool
    ensures { result ≡ near (W.value from) (W.value end) (W.words s.now) }
{
    let mut ok = true;
    for i in 0..s.len() {
        let x = s[i].value();
        ok = ok & ((x <= 2) | ((from.value() <= x) & (x < end.value())));
    }
    ok
}

// heap words a to e - 1
pub fn heap_within<W: Word>(im: &[W], k: usize, a: usize, e: usize, low: &[W], high: &[W]) -> bool
    requires sized { Sized W.BITS k (W.words im.now) }
    requires a_le_e { (a ≤ e) × (e ≤ 256 * k) }
    requires a_in_bounds { (e - a ≤ length low.now) × (e - a ≤ length high.now) }
    ensures { result ≡ within (W.words low.now) (W.words high.now) (take (e - a) (drop a (image_of W.BITS k (W.words im.now)).heap)) }
{
    are_within(&im[a..e], low, high)
}

// heap words a to e - 1
pub fn heap_near<W: Word>(im: &[W], k: usize, a: usize, e: usize, from: W, end: W) -> bool
    requires sized { Sized W.BITS k (W.words im.now) }
    requires a_le_e { (a ≤ e) × (e ≤ 256 * k) }
    ensures { result ≡ near (W.value from) (W.value end) (take (e - a) (drop a (image_of W.BITS k (W.words im.now)).heap)) }
{
    are_near(&im[a..e], from, end)
}
