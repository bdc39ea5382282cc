// Reach, by a tracer: "nil or marked, nothing. Else the object is marked and appended to the output packet."
ghost use Rattle.std.specs.Prelude.{◌≡◌, ◌*◌, ◌<◌};
ghost use Rattle.model.specs.Image.{image_of, set_tracer};
ghost use Rattle.model.specs.Collect.{emptiest, take_output, enter, reach};
ghost use Rattle.theory.specs.Lines.{Lines, NilOr, Start};
ghost use Rattle.image_laws.specs.Sized.{Sized};
ghost use Rattle.collector_laws.specs.Pool.{Spare};

use image::word::Word;

// "first goes back and the pool packet .. is taken. If there is none, no packet is held as output"
#[tactic(auto, using(collector_laws::proofs::Reaching::back_places, collector_laws::proofs::Reaching::output_changed, collector_laws::proofs::Reaching::emptiest_few))]
fn change_output<W: Word>(im: &mut [W], k: usize, t: usize)
    requires sized { Sized W.BITS k (W.words im.old) }
    requires lines { Lines (image_of W.BITS k (W.words im.old)) }
    requires t_bound { t < 8 }
    ensures { image_of W.BITS k (W.words im.new) ≡ set_tracer (image_of W.BITS k (W.words im.old)) t 1 (emptiest (set_tracer (image_of W.BITS k (W.words im.old)) t 1 0)) }
{
    let x = tracer_words::words::read_tracer(im, k, t);
    let y = x.output_goes_back();
    tracer_words::words::write_tracer(im, k, t, y);
    let p = packet_pool::pool::emptiest(im, k);
    let z = y.output_taken(W::of(p));
    tracer_words::words::write_tracer(im, k, t, z);
}

// A full or absent output packet is changed.
#[tactic(auto, using(collector_laws::proofs::Pool::output_few, collector_laws::proofs::Reaching::take_new, collector_laws::proofs::Reaching::take_same))]
pub fn take_output<W: Word>(im: &mut [W], k: usize, t: usize)
    requires sized { Sized W.BITS k (W.words im.old) }
    requires lines { Lines (image_of W.BITS k (W.words im.old)) }
    requires t_bound { t < 8 }
    ensures { image_of W.BITS k (W.words im.new) ≡ take_output (image_of W.BITS k (W.words im.old)) t }
{
    let x = image::sections::tracer_word(im, k, 8 * t + 1).value();
    if packet_pool::pool::lacks_space(im, k, x) {
        change_output(im, k, t);
    }
}

// "appended to the output packet", or "the object's card turns dirty"
#[tactic(auto, using(collector_laws::proofs::Reaching::enter_dirty, collector_laws::proofs::Reaching::enter_append, collector_laws::proofs::Reaching::enter_packet, collector_laws::proofs::Reaching::enter_space, collector_laws::proofs::Reaching::enter_tidy))]
pub fn enter<W: Word>(im: &mut [W], k: usize, t: usize, g: W)
    requires sized { Sized W.BITS k (W.words im.old) }
    requires lines { Lines (image_of W.BITS k (W.words im.old)) }
    requires spare { Spare (image_of W.BITS k (W.words im.old)) t }
    requires t_bound { (t < 8) × (W.value g < 64 * k) }
    ensures { image_of W.BITS k (W.words im.new) ≡ enter (image_of W.BITS k (W.words im.old)) t (W.value g) }
{
    let x = image::sections::tracer_word(im, k, 8 * t + 1).value();
    if x == 0 {
        bits_and_cards::cards::dirty_card(im, k, g.value() / 64);
    } else {
        work_packets::packet::append_entry(im, k, x - 1, g);
    }
}

#[tactic(auto, using(collector_laws::proofs::Reaching::start_in, collector_laws::proofs::Reaching::reach_nil, collector_laws::proofs::Reaching::reach_marked, collector_laws::proofs::Reaching::reach_new, collector_laws::proofs::Reaching::marked_lines, collector_laws::proofs::Reaching::count_below, collector_laws::proofs::Reaching::taken_lines, collector_laws::proofs::Reaching::taken_spare))]
pub fn reach<W: Word>(im: &mut [W], k: usize, t: usize, g: W)
    requires sized { Sized W.BITS k (W.words im.old) }
    requires lines { Lines (image_of W.BITS k (W.words im.old)) }
    requires nil_or { NilOr (Start (image_of W.BITS k (W.words im.old))) (W.value g) }
    requires t_bound { t < 8 }
    ensures { image_of W.BITS k (W.words im.new) ≡ reach (image_of W.BITS k (W.words im.old)) t (W.value g) }
{
    let start = g.value();
    if start == 0 {
        return;
    }
    if bits_and_cards::bits::is_marked(im, k, start) {
        return;
    }
    bits_and_cards::cards::mark_object(im, k, start);
    take_output(im, k, t);
    enter(im, k, t, g);
}
