// The sweep, from the last word of mark bits down. A kept object closes the gap behind it.
ghost use Rattle.std.specs.Prelude.{◌≡◌, ◌+◌, ◌*◌, ◌/◌, ◌≤◌, ◌<◌};
ghost use Rattle.model.specs.Image.{image_of};
ghost use Rattle.image_laws.specs.Sized.{Sized};
ghost use Rattle.finish_laws.specs.Gaps.{Within, edged, swept_from, swept_all};

use image::word::Word;
use runs_laws::Free;
use swept_gaps::gaps::Edge;

// The kept objects of word i, from its highest mark bit down.
pub fn sweep_bits<W: Word>(im: &mut [W], k: usize, i: usize, s: Edge) -> Edge
    requires sized { Sized W.BITS k (W.words im.old) }
    requires i_bound { (i < 64 * k / W.BITS) × Within k s.start s.free × (W.BITS * i + W.BITS ≤ s.start) }
    ensures im_after { edged result.start result.free (image_of W.BITS k (W.words im.new)) ≡ swept_from (W.BITS * i + W.BITS) (edged s.start s.free (image_of W.BITS k (W.words im.old))) W.BITS }
    ensures i_bound_2 { (W.BITS * i ≤ result.start) × Within k result.start result.free }
{
    let mut x = image::sections::mark_word(im, k, i).value();
    let mut t = s;
    while x != 0 {
        let j = 63 - x.leading_zeros() as usize;
        x &= !(1 << j);
        t = swept_gaps::gaps::keep_at(im, k, W::BITS * i + j, t);
    }
    t
}

// Word i of the mark bits. Where all of its granules start kept objects, and so does the next, there is no gap; where none does, nothing is closed.
pub fn sweep_word<W: Word>(im: &mut [W], k: usize, i: usize, s: Edge) -> Edge
    requires sized { Sized W.BITS k (W.words im.old) }
    requires i_bound { (i < 64 * k / W.BITS) × Within k s.start s.free × (W.BITS * i + W.BITS ≤ s.start) }
    ensures im_after { edged result.start result.free (image_of W.BITS k (W.words im.new)) ≡ swept_from (W.BITS * i + W.BITS) (edged s.start s.free (image_of W.BITS k (W.words im.old))) W.BITS }
    ensures i_bound_2 { (W.BITS * i ≤ result.start) × Within k result.start result.free }
{
    let x = image::sections::mark_word(im, k, i).value();
    let e = s.start;
    if e == W::BITS * i + W::BITS {
        if x + 1 == W::VALUES {
            let f = s.free;
            return Edge {
                start: W::BITS * i,
                free: f,
            };
        }
    }
    if x == 0 {
        return s;
    }
    sweep_bits(im, k, i, s)
}

// The whole heap; returns the free granules.
pub fn sweep_all<W: Word>(im: &mut [W], k: usize) -> Free
    requires { Sized W.BITS k (W.words im.old) }
    ensures im_after { edged 0 result (image_of W.BITS k (W.words im.new)) ≡ swept_all k (image_of W.BITS k (W.words im.old)) }
    ensures within { Within k 0 result }
{
    image::sections::set_first_run(im, k, W::of(0));
    let mut s = Edge {
        start: 64 * k,
        free: Free {
            granules: 0,
            usable: 0,
        },
    };
    for i in (0..64 * k / W::BITS).rev() {
        s = sweep_word(im, k, i, s);
    }
    let e = s.start;
    let f = s.free;
    let n = swept_gaps::gaps::close_gap(im, k, 1, e);
    runs::granules::grow(f, n)
}
