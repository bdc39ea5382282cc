// The lines of "undamaged" on what a cycle fills: mark bits and their counts, packets and tracers.
#![tactic(auto)]

ghost use Rattle.std.specs.Prelude.{◌≡◌};
ghost use Rattle.model.specs.Image.{image_of};
ghost use Rattle.image_laws.specs.Sized.{Sized};
ghost use Rattle.soundness_laws.specs.Tests.{cycle_lines};

use image::word::Word;

pub mod counts; // counts.rt: the counts of the cards are those of their mark bits
pub mod marks; // marks.rt: marks stand only on starts
pub mod packets; // packets.rt: packets

#[tactic(auto, using(soundness_laws::proofs::Lines::cycle_no, soundness_laws::proofs::Lines::cycle_packed))]
pub fn cycle_ok<W: Word>(im: &[W], k: usize) -> bool
    requires { Sized W.BITS k (W.words im.now) }
    ensures { result ≡ cycle_lines (image_of W.BITS k (W.words im.now)) }
{
    if !packets::packets_ok(im, k) {
        return false;
    }
    marks::marks_ok(im, k)
        & entries::entered::once_ok(im, k)
        & short_sections::hands::tracers_ok(im, k)
        & short_sections::hands::held_ok(im, k)
        & counts::counts_ok(im, k)
}
