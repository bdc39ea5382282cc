// The words of a tracer that are in use, read from the image and written back.
ghost use Rattle.std.specs.Prelude.{◌≡◌, ◌<◌};
ghost use Rattle.model.specs.Image.{image_of};
ghost use Rattle.image_laws.specs.Sized.{Sized};
ghost use Rattle.tracers_laws.specs.Tracer.{tracer_at, with_tracer};
ghost use Rattle.tracers.specs.Plain.{tracer_of};

use image::word::Word;
use tracers::tracer::Tracer;

#[tactic(auto, using(tracers_laws::proofs::Words::tracer_read))]
pub fn read_tracer<W: Word>(im: &[W], k: usize, t: usize) -> Tracer<W>
    requires sized { Sized W.BITS k (W.words im.now) }
    requires t_bound { t < 8 }
    ensures { tracer_of W.value result ≡ tracer_at (image_of W.BITS k (W.words im.now)) t }
{
    Tracer {
        input: image::sections::tracer_word(im, k, 8 * t),
        output: image::sections::tracer_word(im, k, 8 * t + 1),
        hand: image::sections::tracer_word(im, k, 8 * t + 2),
        link: image::sections::tracer_word(im, k, 8 * t + 3),
        card: image::sections::tracer_word(im, k, 8 * t + 4),
        granule: image::sections::tracer_word(im, k, 8 * t + 5),
    }
}

// All that writes a tracer.
#[tactic(auto, using(tracers_laws::proofs::Words::tracer_written))]
pub fn write_tracer<W: Word>(im: &mut [W], k: usize, t: usize, x: Tracer<W>)
    requires sized { Sized W.BITS k (W.words im.old) }
    requires t_bound { t < 8 }
    ensures { image_of W.BITS k (W.words im.new) ≡ with_tracer (image_of W.BITS k (W.words im.old)) t (tracer_of W.value x) }
{
    image::sections::set_tracer(im, k, t, 0, x.input);
    image::sections::set_tracer(im, k, t, 1, x.output);
    image::sections::set_tracer(im, k, t, 2, x.hand);
    image::sections::set_tracer(im, k, t, 3, x.link);
    image::sections::set_tracer(im, k, t, 4, x.card);
    image::sections::set_tracer(im, k, t, 5, x.granule);
}
