// Stretches of the image cleared: a part of the slice is lent on to `clear`.
ghost use Rattle.std.specs.Prelude.{◌≡◌, ◌*◌, ◌≤◌, length, replicate};
ghost use Rattle.model.specs.Base.{zeros};
ghost use Rattle.model.specs.Image.{image_of, with_heap};
ghost use Rattle.image_laws.specs.Sized.{Sized};
ghost use Rattle.image_laws.specs.Clearing.{zeroed};
ghost use Rattle.image.specs.Section.{part, with_part};

use image::section::Section;
use image::word::Word;

pub fn clear<W: Word>(s: &mut [W])
    ensures { W.words s.new ≡ replicate (length (W.words s.old)) 0 }
{
    for i in 0..s.len() {
        s[i] = W::of(0);
    }
}

// Heap words a to e - 1.
pub fn clear_heap<W: Word>(im: &mut [W], k: usize, a: usize, e: usize)
    requires sized { Sized W.BITS k (W.words im.old) }
    requires a_le_e { (a ≤ e) × (e ≤ 256 * k) }
    ensures { image_of W.BITS k (W.words im.new) ≡ with_heap (image_of W.BITS k (W.words im.old)) (zeroed a e (image_of W.BITS k (W.words im.old)).heap) }
{
    clear(&mut im[a..e]);
}

// All words of section s.
pub fn clear_section<W: Word>(im: &mut [W], k: usize, s: Section)
    requires { Sized W.BITS k (W.words im.old) }
    ensures { image_of W.BITS k (W.words im.new) ≡ with_part s (image_of W.BITS k (W.words im.old)) (zeros (part s (image_of W.BITS k (W.words im.old)))) }
{
    let a = s.place::<W>(k);
    let e = a + s.length::<W>(k);
    clear(&mut im[a..e]);
}
