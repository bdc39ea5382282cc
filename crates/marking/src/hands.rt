// The object in a tracer's hand: "that link is reached, and after the last the hand is empty".
ghost use Rattle.std.specs.Prelude.{◌≡◌, ◌*◌, ◌<◌};
ghost use Rattle.model.specs.Image.{image_of, hand, next_link, links, link};
ghost use Rattle.model.specs.Collect.{reach, trace_hand, take_object};
ghost use Rattle.theory.specs.Lines.{Lines, Start};
ghost use Rattle.image_laws.specs.Sized.{Sized};
ghost use Rattle.tracers_laws.specs.Tracer.{tracer_at, link_done, with_tracer};

use image::word::Word;

// The link was reached: the tracer's next state is written.
#[tactic(auto, using(collector_laws::proofs::Hands::moved_on))]
fn advance<W: Word>(im: &mut [W], k: usize, t: usize, n: W)
    requires sized { Sized W.BITS k (W.words im.old) }
    requires t_bound { (t < 8) × (next_link (image_of W.BITS k (W.words im.old)) t < W.value n) }
    ensures { image_of W.BITS k (W.words im.new) ≡ with_tracer (image_of W.BITS k (W.words im.old)) t (link_done (tracer_at (image_of W.BITS k (W.words im.old)) t) (W.value n)) }
{
    let x = tracer_words::words::read_tracer(im, k, t);
    let y = x.link_done(n);
    tracer_words::words::write_tracer(im, k, t, y);
}

#[tactic(auto, using(collector_laws::proofs::Hands::link_in, collector_laws::proofs::Hands::link_reached))]
fn reach_link<W: Word>(im: &mut [W], k: usize, t: usize, g: usize, i: usize)
    requires sized { Sized W.BITS k (W.words im.old) }
    requires lines { Lines (image_of W.BITS k (W.words im.old)) }
    requires start { Start (image_of W.BITS k (W.words im.old)) g }
    requires t_bound { (t < 8) × (i < links (image_of W.BITS k (W.words im.old)) g) }
    ensures { image_of W.BITS k (W.words im.new) ≡ reach (image_of W.BITS k (W.words im.old)) t (link (image_of W.BITS k (W.words im.old)) g i) }
{
    let a = image::sections::word(im, k, g, 2 + i);
    reach::reaching::reach(im, k, t, a);
}

#[tactic(auto, using(collector_laws::proofs::Hands::hand_traced))]
pub fn trace_hand<W: Word>(im: &mut [W], k: usize, t: usize)
    requires sized { Sized W.BITS k (W.words im.old) }
    requires lines { Lines (image_of W.BITS k (W.words im.old)) }
    requires t_bound { (t < 8) × (0 < hand (image_of W.BITS k (W.words im.old)) t) }
    ensures { image_of W.BITS k (W.words im.new) ≡ trace_hand (image_of W.BITS k (W.words im.old)) t }
{
    let x = tracer_words::words::read_tracer(im, k, t);
    let g = x.hand.value();
    let n = image::sections::word(im, k, g, 1);
    reach_link(im, k, t, g, x.link.value());
    advance(im, k, t, n);
}

// "it goes in hand at link 0, unless .. it has no links"
#[tactic(auto, using(collector_laws::proofs::Hands::hand_unlinked, collector_laws::proofs::Hands::hand_taken))]
pub fn take_object<W: Word>(im: &mut [W], k: usize, t: usize, g: W)
    requires sized { Sized W.BITS k (W.words im.old) }
    requires t_bound { (t < 8) × (W.value g < 64 * k) }
    ensures { image_of W.BITS k (W.words im.new) ≡ take_object (image_of W.BITS k (W.words im.old)) t (W.value g) }
{
    if image::sections::links(im, k, g.value()) == 0 {
        return;
    }
    let x = tracer_words::words::read_tracer(im, k, t);
    let y = x.object_in_hand(g);
    tracer_words::words::write_tracer(im, k, t, y);
}
