// Starts counted.
ghost use Rattle.std.specs.Prelude.{◌≡◌, ◌*◌};
ghost use Rattle.model.specs.Base.{how_many};
ghost use Rattle.model.specs.Image.{image_of, is_start};
ghost use Rattle.image_laws.specs.Sized.{Sized};

use image::word::Word;

pub fn count_starts<W: Word>(im: &[W], k: usize) -> usize
    requires { Sized W.BITS k (W.words im.now) }
    ensures { result ≡ how_many (is_start (image_of W.BITS k (W.words im.now))) (64 * k) }
{
    // In 32 bits, which the processor counts in half the time of 64.
    let mut n: u32 = 0;
    for i in 0..64 * k / W::BITS {
        n += u32::count_ones(image::sections::start_word(im, k, i).value() as u32);
    }
    n as usize
}
