// Kind 11: trace "does the first that applies".
ghost use Rattle.std.specs.Prelude.{◌≡◌, false, suc, ◌<◌, eqb};
ghost use Rattle.model.specs.Image.{image_of, input, count};
ghost use Rattle.model.specs.Collect.{trace_input, trace_line, trace_step, has_entries};
ghost use Rattle.model.specs.Mutate.{tightest};
ghost use Rattle.model.specs.Steps.{step};
ghost use Rattle.theory.specs.Lines.{Lines, Sound};
ghost use Rattle.image_laws.specs.Sized.{Sized};
ghost use Rattle.request_laws.specs.Answer.{asked, done_of};
ghost use Rattle.tracers_laws.specs.Tracer.{tracer_at};
ghost use Rattle.tracers.specs.Plain.{tracer_of};
ghost use Rattle.collector_laws.specs.Outcome.{done_unless};

use image::word::Word;
use request_laws::Refusal;
use tracers::tracer::Tracer;

// "Input has entries: the last comes off; it goes in hand at link 0, unless its card is dirty or it has no links."
#[tactic(auto, using(collector_laws::proofs::Tracing::popped_in, collector_laws::proofs::Tracing::popped_dirty, collector_laws::proofs::Tracing::popped_card))]
fn trace_input<W: Word>(im: &mut [W], k: usize, t: usize, p: usize)
    requires sized { Sized W.BITS k (W.words im.old) }
    requires lines { Lines (image_of W.BITS k (W.words im.old)) }
    requires t_bound { (t < 8) × (p < 32) × (input (image_of W.BITS k (W.words im.old)) t ≡ suc p) × (0 < count (image_of W.BITS k (W.words im.old)) p) }
    ensures { image_of W.BITS k (W.words im.new) ≡ trace_input (image_of W.BITS k (W.words im.old)) t }
{
    let g = work_packets::packet::pop_entry(im, k, p);
    if bits_and_cards::cards::is_dirty(im, k, g.value() / 64) {
        return;
    }
    crate::hands::take_object(im, k, t, g);
}

// "The pool has entries: the input goes back and the fullest pool packet, lowest number, becomes input. Own output has
// entries: the input goes back and the output becomes input."
#[tactic(auto, using(collector_laws::proofs::Tracing::fullest_few, collector_laws::proofs::Tracing::trace_pool_line, collector_laws::proofs::Tracing::trace_output_line, collector_laws::proofs::Tracing::trace_no_line))]
fn trace_packets<W: Word>(im: &mut [W], k: usize, t: usize, x: Tracer<W>) -> Result<W, Refusal>
    requires sized { Sized W.BITS k (W.words im.old) }
    requires lines { Lines (image_of W.BITS k (W.words im.old)) }
    requires t_bound { (t < 8) × (tracer_of W.value x ≡ tracer_at (image_of W.BITS k (W.words im.old)) t) }
    requires hand_value { (W.value x.hand ≡ 0) × (has_entries (image_of W.BITS k (W.words im.old)) (W.value x.input) ≡ false) }
    ensures { done_of W.value result (image_of W.BITS k (W.words im.new)) ≡ done_unless (eqb (trace_line (image_of W.BITS k (W.words im.old)) t) 0) (image_of W.BITS k (W.words im.old)) (trace_step (image_of W.BITS k (W.words im.old)) t) }
{
    let f = packet_pool::pool::fullest(im, k);
    if f != 0 {
        let y = x.packet_becomes_input(W::of(f));
        tracer_words::words::write_tracer(im, k, t, y);
        return Ok(W::of(0));
    }
    if packet_pool::pool::has_entries(im, k, x.output.value()) {
        let z = x.output_becomes_input();
        tracer_words::words::write_tracer(im, k, t, z);
        return Ok(W::of(0));
    }
    Err(Refusal::NothingToDo)
}

#[tactic(auto, using(collector_laws::proofs::Tracing::hand_held, collector_laws::proofs::Tracing::entries_packet, collector_laws::proofs::Tracing::entries_count, collector_laws::proofs::Tracing::trace_hand_line, collector_laws::proofs::Tracing::trace_input_line, collector_laws::proofs::Tracing::input_packet, collector_laws::proofs::Tracing::input_is))]
fn trace_lines<W: Word>(im: &mut [W], k: usize, t: usize) -> Result<W, Refusal>
    requires sized { Sized W.BITS k (W.words im.old) }
    requires lines { Lines (image_of W.BITS k (W.words im.old)) }
    requires t_bound { t < 8 }
    ensures { done_of W.value result (image_of W.BITS k (W.words im.new)) ≡ done_unless (eqb (trace_line (image_of W.BITS k (W.words im.old)) t) 0) (image_of W.BITS k (W.words im.old)) (trace_step (image_of W.BITS k (W.words im.old)) t) }
{
    let x = tracer_words::words::read_tracer(im, k, t);
    if x.hand.value() != 0 {
        crate::hands::trace_hand(im, k, t);
        return Ok(W::of(0));
    }
    let i = x.input.value();
    if packet_pool::pool::has_entries(im, k, i) {
        trace_input(im, k, t, i - 1);
        return Ok(W::of(0));
    }
    trace_packets(im, k, t, x)
}

#[tactic(auto, using(collector_laws::proofs::Steps::trace_refused, collector_laws::proofs::Steps::trace_goes))]
pub fn trace<W: Word>(im: &mut [W], k: usize, t: usize) -> Result<W, Refusal>
    requires sized { Sized W.BITS k (W.words im.old) }
    requires sound { Sound (image_of W.BITS k (W.words im.old)) }
    requires t_bound { t < 8 }
    ensures { done_of W.value result (image_of W.BITS k (W.words im.new)) ≡ step tightest (image_of W.BITS k (W.words im.old)) (asked 11 t 0 0 0) }
{
    if image::sections::running(im, k).value() == 0 {
        return Err(Refusal::WrongPhase);
    }
    trace_lines(im, k, t)
}
