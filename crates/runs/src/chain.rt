// The chain of free runs: its words, and the tightest run that suffices.
ghost use Rattle.std.specs.Prelude.{◌≡◌, ◌&&◌, ◌||◌, ◌*◌, ◌<◌, leb, ltb, eqb};
ghost use Rattle.model.specs.Image.{image_of, word, first_run};
ghost use Rattle.model.specs.Mutate.{tightest, room_for};
ghost use Rattle.image_laws.specs.Sized.{Sized};
ghost use Rattle.runs_laws.specs.Chain.{Linked, room_of};

use image::word::Word;
use runs_laws::Room;

pub fn run_length<W: Word>(im: &[W], k: usize, g: usize) -> usize
    requires sized { Sized W.BITS k (W.words im.now) }
    requires g_bound { g < 64 * k }
    ensures { result ≡ word (image_of W.BITS k (W.words im.now)) g 0 }
{
    image::sections::word(im, k, g, 0).value()
}

pub fn next_run<W: Word>(im: &[W], k: usize, g: usize) -> usize
    requires sized { Sized W.BITS k (W.words im.now) }
    requires g_bound { g < 64 * k }
    ensures { result ≡ word (image_of W.BITS k (W.words im.now)) g 1 }
{
    image::sections::word(im, k, g, 1).value()
}

// A run of `length` granules suffices for b, and is shorter than run `run`, which has `least`, or `run` is 0: there is none yet.
fn tighter(b: usize, length: usize, run: usize, least: usize) -> bool
    ensures { result ≡ (leb b length && (eqb run 0 || ltb length least)) }
{
    b <= length && (run == 0 || length < least)
}

// "the shortest run that suffices, the lowest of equals"; none is shorter than one of just b granules.
pub fn find_room<W: Word>(im: &[W], k: usize, b: usize) -> Room
    requires sized { Sized W.BITS k (W.words im.now) }
    requires linked { Linked (image_of W.BITS k (W.words im.now)) (first_run (image_of W.BITS k (W.words im.now))) }
    ensures { room_of result ≡ room_for tightest (image_of W.BITS k (W.words im.now)) b }
{
    let mut best = Room { run: 0, before: 0 };
    let mut least: usize = 0;
    let mut before: usize = 0;
    let mut g = image::sections::first_run(im, k).value();
    while g != 0 {
        let length = run_length(im, k, g);
        if tighter(b, length, best.run, least) {
            best = Room { run: g, before };
            if length == b {
                return best;
            }
            least = length;
        }
        before = g;
        g = next_run(im, k, g);
    }
    best
}
