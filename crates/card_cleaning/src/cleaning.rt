// Kind 12: clean, "object in hand, as in trace", then a card's marked objects, then the lowest dirty card.
ghost use Rattle.std.specs.Prelude.{◌≡◌, ◌<◌, eqb};
ghost use Rattle.model.specs.Image.{image_of};
ghost use Rattle.model.specs.Collect.{clean_card, take_card, clean_line, clean_step};
ghost use Rattle.model.specs.Mutate.{tightest};
ghost use Rattle.model.specs.Steps.{step};
ghost use Rattle.theory.specs.Lines.{Lines, Sound};
ghost use Rattle.image_laws.specs.Sized.{Sized};
ghost use Rattle.request_laws.specs.Answer.{asked, done_of};
ghost use Rattle.tracers_laws.specs.Tracer.{tracer_at};
ghost use Rattle.tracers.specs.Plain.{tracer_of};
ghost use Rattle.collector_laws.specs.Outcome.{done_unless};

use image::word::Word;
use request_laws::Refusal;
use tracers::tracer::Tracer;

// "the next marked object from its next granule goes in hand at link 0 (unless without links) and the next granule is the
// one after its start; if none is left, the card is let go"
fn clean_card<W: Word>(im: &mut [W], k: usize, t: usize, x: Tracer<W>)
    requires sized { Sized W.BITS k (W.words im.old) }
    requires lines { Lines (image_of W.BITS k (W.words im.old)) }
    requires t_bound { (t < 8) × (tracer_of W.value x ≡ tracer_at (image_of W.BITS k (W.words im.old)) t) × (0 < W.value x.card) }
    ensures { image_of W.BITS k (W.words im.new) ≡ clean_card (image_of W.BITS k (W.words im.old)) t }
{
    let from = x.granule.value();
    let card = x.card.value();
    let Some(start) = tracer_words::marks::next_marked(im, k, from, card) else {
        let gone = x.card_let_go();
        tracer_words::words::write_tracer(im, k, t, gone);
        return;
    };
    let object = W::of(start);
    let y = x.granule_moves_on(object);
    tracer_words::words::write_tracer(im, k, t, y);
    marking::hands::take_object(im, k, t, object);
}

// "the lowest card in state 1 becomes 2 and is in hand at its first granule"
fn take_card<W: Word>(im: &mut [W], k: usize, t: usize, c: usize)
    requires sized { Sized W.BITS k (W.words im.old) }
    requires t_bound { (t < 8) × (c < k) }
    ensures { image_of W.BITS k (W.words im.new) ≡ take_card (image_of W.BITS k (W.words im.old)) t c }
{
    image::sections::set_card(im, k, c, W::of(2));
    let x = tracer_words::words::read_tracer(im, k, t);
    let y = x.card_taken(W::of(c));
    tracer_words::words::write_tracer(im, k, t, y);
}

#[tactic(auto, using(collector_laws::proofs::Cleaning::clean_hand_line, collector_laws::proofs::Cleaning::clean_card_line, collector_laws::proofs::Cleaning::clean_dirty_line, collector_laws::proofs::Cleaning::clean_no_line, collector_laws::proofs::Tracing::hand_held))]
fn clean_lines<W: Word>(im: &mut [W], k: usize, t: usize) -> Result<W, Refusal>
    requires sized { Sized W.BITS k (W.words im.old) }
    requires lines { Lines (image_of W.BITS k (W.words im.old)) }
    requires t_bound { t < 8 }
    ensures { done_of W.value result (image_of W.BITS k (W.words im.new)) ≡ done_unless (eqb (clean_line (image_of W.BITS k (W.words im.old)) t) 0) (image_of W.BITS k (W.words im.old)) (clean_step (image_of W.BITS k (W.words im.old)) t) }
{
    let x = tracer_words::words::read_tracer(im, k, t);
    if x.hand.value() != 0 {
        marking::hands::trace_hand(im, k, t);
        return Ok(W::of(0));
    }
    if x.card.value() != 0 {
        clean_card(im, k, t, x);
        return Ok(W::of(0));
    }
    let Some(c) = crate::cards::lowest_dirty(im, k) else {
        return Err(Refusal::NothingToDo);
    };
    take_card(im, k, t, c);
    Ok(W::of(0))
}

#[tactic(auto, using(collector_laws::proofs::Steps::clean_refused, collector_laws::proofs::Steps::clean_goes))]
pub fn clean<W: Word>(im: &mut [W], k: usize, t: usize) -> Result<W, Refusal>
    requires sized { Sized W.BITS k (W.words im.old) }
    requires sound { Sound (image_of W.BITS k (W.words im.old)) }
    requires t_bound { t < 8 }
    ensures { done_of W.value result (image_of W.BITS k (W.words im.new)) ≡ step tightest (image_of W.BITS k (W.words im.old)) (asked 12 t 0 0 0) }
{
    if image::sections::running(im, k).value() == 0 {
        return Err(Refusal::WrongPhase);
    }
    clean_lines(im, k, t)
}
