// The end of a finish: start bits of what is kept, and what becomes 0.
ghost use Rattle.std.specs.Prelude.{◌≡◌};
ghost use Rattle.model.specs.Image.{image_of, with_players};
ghost use Rattle.image_laws.specs.Sized.{Sized};
ghost use Rattle.finish_laws.specs.Ending.{StartsKept, scanned_off_to, ended};

use image::section::Section;
use image::word::Word;

// Marks stand on what is kept alone, so that the mark bits are its start bits.
pub fn keep_starts<W: Word>(im: &mut [W], k: usize)
    requires { Sized W.BITS k (W.words im.old) }
    ensures { StartsKept W.BITS (image_of W.BITS k (W.words im.old)) (image_of W.BITS k (W.words im.new)) }
{
    for i in 0..64 * k / W::BITS {
        let v = image::sections::mark_word(im, k, i).value();
        image::sections::set_start_word(im, k, i, W::of(v));
    }
}

// The scanned words become 0.
pub fn unscan<W: Word>(im: &mut [W], k: usize)
    requires { Sized W.BITS k (W.words im.old) }
    ensures { image_of W.BITS k (W.words im.new) ≡ with_players (image_of W.BITS k (W.words im.old)) (scanned_off_to (image_of W.BITS k (W.words im.old)).players 16) }
{
    for p in 0..16 {
        image::sections::set_player_word(im, k, 2 * p + 1, W::of(0));
    }
}

// Marks and their counts, packets, tracers, scanned and running become 0.
pub fn end_cycle<W: Word>(im: &mut [W], k: usize)
    requires { Sized W.BITS k (W.words im.old) }
    ensures { image_of W.BITS k (W.words im.new) ≡ ended (image_of W.BITS k (W.words im.old)) }
{
    stretches::clearing::clear_section(im, k, Section::Marks);
    stretches::clearing::clear_section(im, k, Section::Counts);
    stretches::clearing::clear_section(im, k, Section::Packets);
    stretches::clearing::clear_section(im, k, Section::Tracers);
    unscan(im, k);
    image::sections::set_general_word(im, k, 0, W::of(0));
}
