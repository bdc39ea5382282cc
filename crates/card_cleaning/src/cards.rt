// The lowest card that is dirty and not taken.
ghost use Rattle.std.specs.Prelude.{◌≡◌};
ghost use Rattle.model.specs.Image.{image_of};
ghost use Rattle.model.specs.Collect.{lowest_dirty};
ghost use Rattle.image_laws.specs.Sized.{Sized};
ghost use Rattle.tracers_laws.specs.Marks.{one_more};

use image::word::Word;

// "the lowest card in state 1"
#[tactic(auto, using(collector_laws::proofs::Cards::dirty_first, collector_laws::proofs::Cards::dirty_end, collector_laws::proofs::Cards::dirty_more, collector_laws::proofs::Cards::dirty_found))]
pub fn lowest_dirty<W: Word>(im: &[W], k: usize) -> Option<usize>
    requires { Sized W.BITS k (W.words im.now) }
    ensures { one_more result ≡ lowest_dirty (image_of W.BITS k (W.words im.now)) }
{
    for c in 0..k {
        if image::sections::card(im, k, c).value() == 1 {
            return Some(c);
        }
    }
    None
}
