// A finish: what it finds is marked, the rest is freed, and the cycle ends.
#![tactic(auto)]

ghost use Rattle.std.specs.Prelude.{◌≡◌};
ghost use Rattle.model.specs.Finish.{finish_step};
ghost use Rattle.model.specs.Image.{image_of};
ghost use Rattle.model.specs.Mutate.{free_granules};
ghost use Rattle.theory.specs.Lines.{Sound};
ghost use Rattle.image_laws.specs.Sized.{Sized};
ghost use Rattle.runs_laws.specs.Granules.{free_of};
ghost use Rattle.finish_laws.specs.Ending.{finished};

use image::word::Word;
use runs_laws::Free;

pub mod step; // step.rt: kind 13, the finish as a step

// The value, granules freed, by which the free granules grow; and all of these.
#[derive(Clone, Copy)]
pub struct Freed<W> {
    pub value: W,
    pub free: Free,
}

pub fn finish<W: Word>(im: &mut [W], k: usize, before: usize) -> Freed<W>
    requires sized { Sized W.BITS k (W.words im.old) }
    requires sound { Sound (image_of W.BITS k (W.words im.old)) }
    requires before_value { before ≡ free_granules (image_of W.BITS k (W.words im.old)) }
    ensures im_after { finished (W.value result.value) (image_of W.BITS k (W.words im.new)) ≡ finish_step (image_of W.BITS k (W.words im.old)) }
    ensures free_value { result.free ≡ free_of (image_of W.BITS k (W.words im.new)) }
{
    finish_marking::mark_found(im, k);
    let after = sweep::bits::sweep_all(im, k);
    ended_cycle::ending::keep_starts(im, k);
    ended_cycle::ending::end_cycle(im, k);
    Freed {
        value: W::of(after.granules - before),
        free: after,
    }
}
