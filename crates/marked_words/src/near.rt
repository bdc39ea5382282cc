// Bit words whose objects link to none but those of their stretch, told by bounds alone.
ghost use Rattle.std.specs.Prelude.{◌≡◌, ◌*◌, ◌/◌, ◌≤◌, ◌<◌};
ghost use Rattle.model.specs.Image.{image_of};
ghost use Rattle.image_laws.specs.Sized.{Sized};
ghost use Rattle.judge_laws.specs.Near.{near_word};

use image::word::Word;

// Heap words are held to bounds whatever they are: sizes and numbers of links are at most 2 in a word full of marks, for behind each object
// but the last stands the next.
pub fn is_near<W: Word>(im: &[W], k: usize, from: usize, i: usize) -> bool
    requires sized { Sized W.BITS k (W.words im.now) }
    requires from_le_i { (from ≤ i) × (i < 64 * k / W.BITS) }
    ensures { result ≡ near_word W.BITS (image_of W.BITS k (W.words im.now)) from i }
{
    let a = W::BITS * i;
    let e = a + W::BITS;
    if 2 < image::sections::links(im, k, e - 1) {
        return false;
    }
    stretches::compare::heap_near(im, k, 4 * a, 4 * e, W::of(W::BITS * from), W::of(e))
}
