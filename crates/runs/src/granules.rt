// Free granules, counted: all of them, and those of usable runs.
ghost use Rattle.std.specs.Prelude.{◌≡◌, ◌+◌, ◌^◌, ◌<◌};
ghost use Rattle.model.specs.Image.{image_of};
ghost use Rattle.model.specs.Mutate.{if_long, usable_run};
ghost use Rattle.theory.specs.Lines.{Sound};
ghost use Rattle.image_laws.specs.Sized.{Sized};
ghost use Rattle.runs_laws.specs.Granules.{free_of, grown};

use image::word::Word;
use runs_laws::Free;

// "only runs of 8 granules or more count"
const USABLE_RUN: usize = 8;

// How many granules of a run of so many are usable.
pub fn usable_of(length: usize) -> usize
    ensures { result ≡ if_long usable_run length }
{
    if USABLE_RUN <= length {
        return length;
    }
    0
}

// With a run of n granules more; n is 0 where there is none.
pub fn grow(f: Free, n: usize) -> Free
    requires { (f.granules + n < 2 ^ 64) × (f.usable + n < 2 ^ 64) }
    ensures { result ≡ grown f n }
{
    Free {
        granules: f.granules + n,
        usable: f.usable + usable_of(n),
    }
}

// Along the chain of all runs.
pub fn count<W: Word>(im: &[W], k: usize) -> Free
    requires sized { Sized W.BITS k (W.words im.now) }
    requires sound { Sound (image_of W.BITS k (W.words im.now)) }
    ensures { result ≡ free_of (image_of W.BITS k (W.words im.now)) }
{
    let mut f = Free {
        granules: 0,
        usable: 0,
    };
    let mut g = image::sections::first_run(im, k).value();
    while g != 0 {
        let length = image::sections::word(im, k, g, 0).value();
        f = grow(f, length);
        g = crate::chain::next_run(im, k, g);
    }
    f
}
