// Objects and runs fill the heap, and the links of every object are nil or starts.
ghost use Rattle.std.specs.Prelude.{◌≡◌, false, cond, ◌&&◌, ◌+◌, ◌*◌, ◌≤◌, ◌<◌};
ghost use Rattle.model.specs.Base.{all};
ghost use Rattle.model.specs.Image.{image_of, granules, is_start, first_run};
ghost use Rattle.model.specs.Undamaged.{links_ok, zero_granule, filled};
ghost use Rattle.image_laws.specs.Sized.{Sized};
ghost use Rattle.image_laws.specs.Digits.{digit};
ghost use Rattle.soundness_laws.specs.Sets.{Named};
ghost use Rattle.soundness_laws.specs.Small.{SmallUpto};
ghost use Rattle.soundness_laws.specs.Tests.{LinksInside};

use image::section::Section;
use image::word::Word;

// ---- the walk

pub fn object_links<W: Word>(im: &[W], k: usize, table: &[u64], g: usize, object: bool) -> bool
    requires sized { Sized W.BITS k (W.words im.now) }
    requires named { Named W.BITS (image_of W.BITS k (W.words im.now)).starts table.now }
    requires g_bound { g < 64 * k }
    requires object_value { object ≡ is_start (image_of W.BITS k (W.words im.now)) g }
    requires links_inside { LinksInside k (image_of W.BITS k (W.words im.now)) g }
    ensures { result ≡ links_ok (image_of W.BITS k (W.words im.now)) g }
{
    if object {
        return targets::links_ok(im, k, table, g, image::sections::links(im, k, g));
    }
    true
}

// Where the last run ends, behind a piece that ends at `after`.
fn run_end(object: bool, end: usize, after: usize) -> usize
    ensures { result ≡ cond object end after }
{
    if object { end } else { after }
}

// That no start lies inside a piece is told at the end: then there are as many starts as objects. Not inlined, so that what the loop needs stays in registers.
#[inline(never)]
pub fn walk<W: Word>(im: &[W], k: usize, table: &[u64], from: usize, first: usize) -> bool
    requires sized { Sized W.BITS k (W.words im.now) }
    requires named { Named W.BITS (image_of W.BITS k (W.words im.now)).starts table.now }
    requires first_value { first ≡ first_run (image_of W.BITS k (W.words im.now)) }
    requires im_value { is_start (image_of W.BITS k (W.words im.now)) 0 ≡ false }
    requires small_upto { SmallUpto k (image_of W.BITS k (W.words im.now)) from }
    ensures { result ≡ (filled (image_of W.BITS k (W.words im.now)) && all (granules (image_of W.BITS k (W.words im.now))) (links_ok (image_of W.BITS k (W.words im.now)))) }
{
    let mut g = from;
    let mut next = first;
    let mut end = 0;
    let mut seen = from - 1;
    while g < 64 * k {
        let object = bits_and_cards::bits::is_start(im, k, g);
        if !heap_pieces::pieces::piece_ok(im, k, g, object, next, g == end) {
            return false;
        }
        if !object_links(im, k, table, g, object) {
            return false;
        }
        seen += object as usize;
        next = heap_pieces::pieces::next_run(im, k, g, object, next);
        let after = g + image::sections::word(im, k, g, 0).value();
        end = run_end(object, end, after);
        g = after;
    }
    (next == 0) & (seen == heap_pieces::starts::count_starts(im, k))
}

// ---- granule 0, and the whole heap

pub fn first_unused<W: Word>(im: &[W], k: usize) -> bool
    requires { Sized W.BITS k (W.words im.now) }
    ensures { result ≡ zero_granule (image_of W.BITS k (W.words im.now)) }
{
    stretches::parts::zero_part(im, k, Section::Heap, 0, 4)
        & !bits_and_cards::bits::is_start(im, k, 0)
}

pub fn heap_ok<W: Word>(im: &[W], k: usize, table: &[u64]) -> bool
    requires sized { Sized W.BITS k (W.words im.now) }
    requires named { Named W.BITS (image_of W.BITS k (W.words im.now)).starts table.now }
    ensures { result ≡ (zero_granule (image_of W.BITS k (W.words im.now)) && (filled (image_of W.BITS k (W.words im.now)) && all (granules (image_of W.BITS k (W.words im.now))) (links_ok (image_of W.BITS k (W.words im.now))))) }
{
    if !first_unused(im, k) {
        return false;
    }
    let from = targets::small::after_small(im, k, table);
    walk(
        im,
        k,
        table,
        from,
        image::sections::first_run(im, k).value(),
    )
}
