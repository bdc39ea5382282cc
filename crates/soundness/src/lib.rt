// Every line of "undamaged" but Cover, over the words of an image.
#![tactic(auto)]

ghost use Rattle.std.specs.Prelude.{◌≡◌};
ghost use Rattle.model.specs.Image.{image_of};
ghost use Rattle.model.specs.Undamaged.{sound};
ghost use Rattle.image_laws.specs.Sized.{Sized};
ghost use Rattle.soundness_laws.specs.Tests.{layout};

use image::word::Word;
use sets::TABLE;

pub mod heap; // heap.rt: objects and runs fill the heap, links are nil or starts

pub fn layout_ok<W: Word>(im: &[W], k: usize) -> bool
    requires { Sized W.BITS k (W.words im.now) }
    ensures { result ≡ layout (image_of W.BITS k (W.words im.now)) }
{
    let mut table: [u64; TABLE] = [0; TABLE];
    sets::note_starts(im, k, &mut table);
    heap::heap_ok(im, k, &table)
        & targets::regs_ok(im, k, &table)
        & short_sections::cards_ok(im, k)
        & short_sections::players_ok(im, k)
        & short_sections::general_ok(im, k)
}

pub fn is_sound<W: Word>(im: &[W], k: usize) -> bool
    requires { Sized W.BITS k (W.words im.now) }
    ensures { result ≡ sound (image_of W.BITS k (W.words im.now)) }
{
    let ok = layout_ok(im, k);
    if image::sections::running(im, k).value() == 0 {
        return ok & short_sections::is_idle(im, k);
    }
    ok & cycle_sections::cycle_ok(im, k)
}
