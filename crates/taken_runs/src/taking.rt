// A run gives its first granules to an object.
ghost use Rattle.std.specs.Prelude.{◌≡◌, ◌*◌, ◌-◌, ◌≤◌, ◌<◌};
ghost use Rattle.model.specs.Image.{image_of, word, set_word, set_start, set_reg};
ghost use Rattle.model.specs.Mutate.{set_next, take_run, if_long, usable_run};
ghost use Rattle.image_laws.specs.Sized.{Sized};
ghost use Rattle.runs_laws.specs.Granules.{shrunk};
ghost use Rattle.mutator_laws.specs.Taking.{RunFor, ObjectFits};

use image::word::Word;
use runs_laws::Free;

// The run after run `before`, or the first one, becomes g.
fn set_next<W: Word>(im: &mut [W], k: usize, before: usize, g: W)
    requires sized { Sized W.BITS k (W.words im.old) }
    requires before_bound { before < 64 * k }
    ensures { image_of W.BITS k (W.words im.new) ≡ set_next (image_of W.BITS k (W.words im.old)) before (W.value g) }
{
    if before == 0 {
        image::sections::set_first_run(im, k, g);
    } else {
        image::sections::set_word(im, k, before, 1, g);
    }
}

// Run g shrinks by its first b granules, or goes; `before` is the run before it. Returns the free granules then.
pub fn take_run<W: Word>(im: &mut [W], k: usize, g: usize, before: usize, b: usize, f: Free) -> Free
    requires sized { Sized W.BITS k (W.words im.old) }
    requires run_for { RunFor k (image_of W.BITS k (W.words im.old)) b g before }
    requires b_le_granules { (b ≤ f.granules) × (if_long usable_run (word (image_of W.BITS k (W.words im.old)) g 0) ≤ f.usable) }
    ensures im_after { image_of W.BITS k (W.words im.new) ≡ take_run (image_of W.BITS k (W.words im.old)) g before b (word (image_of W.BITS k (W.words im.old)) g 0 - b) }
    ensures value { result ≡ shrunk f (word (image_of W.BITS k (W.words im.old)) g 0) b }
{
    let length = runs::chain::run_length(im, k, g);
    let next = image::sections::word(im, k, g, 1);
    let granules = f.granules - b;
    let others = f.usable - runs::granules::usable_of(length);
    if length == b {
        set_next(im, k, before, next);
        return Free {
            granules,
            usable: others,
        };
    }
    let left = length - b;
    image::sections::set_word(im, k, g + b, 0, W::of(left));
    image::sections::set_word(im, k, g + b, 1, next);
    set_next(im, k, before, W::of(g + b));
    Free {
        granules,
        usable: others + runs::granules::usable_of(left),
    }
}

// The words that a new object differs in from the run that was there: size and number of links. The others are zero in a run.
pub fn make_object<W: Word>(
    im: &mut [W],
    k: usize,
    p: usize,
    a: usize,
    b: usize,
    c: usize,
    g: usize,
)
    requires sized { Sized W.BITS k (W.words im.old) }
    requires p_bound { (p < 16) × (a < 16) }
    requires object_fits { ObjectFits k b c g }
    ensures { image_of W.BITS k (W.words im.new) ≡ set_reg (set_start (set_word (set_word (image_of W.BITS k (W.words im.old)) g 0 b) g 1 c) g) p a g }
{
    image::sections::set_word(im, k, g, 0, W::of(b));
    image::sections::set_word(im, k, g, 1, W::of(c));
    bits_and_cards::bits::set_start(im, k, g);
    image::sections::set_reg(im, k, p, a, W::of(g));
}
