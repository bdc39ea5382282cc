// The marking of a finish: all that it keeps is marked, with no memory beyond the image's own bits and cards.
#![tactic(auto)]

ghost use Rattle.model.specs.Image.{image_of};
ghost use Rattle.theory.specs.Lines.{Sound};
ghost use Rattle.image_laws.specs.Sized.{Sized};
ghost use Rattle.finish_marking_laws.specs.Seeds.{KeptMarked};

use image::word::Word;

pub mod follow; // follow.rt: links followed from pending objects on, with the cards as a work list

// Marks all that a finish keeps: the seeds become pending, then their links are followed.
pub fn mark_found<W: Word>(im: &mut [W], k: usize)
    requires sized { Sized W.BITS k (W.words im.old) }
    requires sound { Sound (image_of W.BITS k (W.words im.old)) }
    ensures { KeptMarked (image_of W.BITS k (W.words im.old)) (image_of W.BITS k (W.words im.new)) }
{
    finish_seeds::seeds::open_entries(im, k);
    finish_seeds::seeds::open_hands(im, k);
    finish_seeds::seeds::open_dirties(im, k);
    finish_seeds::seeds::hold_all(im, k);
    let head = finish_seeds::seeds::list_all(im, k);
    follow::mark_all(im, k, head);
}
