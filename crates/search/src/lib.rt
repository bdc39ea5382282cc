// What chains from registers reach, found in two bit planes of a lent scratch.
#![tactic(auto)]

ghost use Rattle.std.specs.Prelude.{◌≡◌, ◌*◌, ◌/◌, length};
ghost use Rattle.model.specs.Image.{image_of};
ghost use Rattle.theory.specs.Lines.{Sound};
ghost use Rattle.image_laws.specs.Sized.{Sized};
ghost use Rattle.search_laws.specs.Search.{ChainBits};

use image::word::Word;

pub mod follow; // follow.rt: links followed from pending objects on

// 2 KB in words of 16 bits: so many hints that the plane of pending objects is seldom walked.
pub const HINTS: usize = 1024;

// The planes may hold anything at entry. Afterwards the first has granule 0 and what a chain reaches, the second is zero.
pub fn reach<W: Word>(im: &[W], k: usize, s: &mut [W])
    requires sized { Sized W.BITS k (W.words im.now) }
    requires sound { Sound (image_of W.BITS k (W.words im.now)) }
    requires s_len { length s.old ≡ 2 * (64 * k / W.BITS) }
    ensures { ChainBits W.BITS k (image_of W.BITS k (W.words im.now)) (W.words s.new) }
{
    let mut hints = [W::of(0); HINTS];
    follow::reach_with(im, k, s, &mut hints);
}
