// The records of a batch, one after the other.
#![tactic(auto)]

ghost use Rattle.std.specs.Prelude.{◌≡◌, ◌+◌, ◌*◌, ◌/◌, ◌%◌, ◌≤◌, length};
ghost use Rattle.model.specs.Image.{image_of};
ghost use Rattle.model.specs.Records.{records, record_bytes};
ghost use Rattle.model.specs.Mutate.{tightest};
ghost use Rattle.model.specs.Steps.{step, run, after, answers_of};
ghost use Rattle.theory.specs.Lines.{Undamaged};
ghost use Rattle.image_laws.specs.Sized.{Sized};
ghost use Rattle.request_laws.specs.Request.{requested, InRange};
ghost use Rattle.runs_laws.specs.Granules.{free_of};
ghost use Rattle.show_store_laws.specs.Run.{written_at};

use image::word::Word;
use records::format::Format;
use request_laws::Request;
use runs_laws::Free;

// Request i of a batch, and its two answer words; returns the free granules then.
pub fn one<W: Word>(
    im: &mut [W],
    k: usize,
    r: Request,
    answers: &mut [W],
    i: usize,
    free: Free,
) -> Free
    requires sized { Sized W.BITS k (W.words im.old) }
    requires undamaged { Undamaged (image_of W.BITS k (W.words im.old)) }
    requires in_range { InRange W.BITS r }
    requires i_in_bounds { 2 * i + 2 ≤ length answers.old }
    requires free_value { free ≡ free_of (image_of W.BITS k (W.words im.old)) }
    ensures im_after { image_of W.BITS k (W.words im.new) ≡ (step tightest (image_of W.BITS k (W.words im.old)) (requested r)).image }
    ensures answers_after { W.words answers.new ≡ written_at (W.words answers.old) i (step tightest (image_of W.BITS k (W.words im.old)) (requested r)) }
    ensures value { result ≡ free_of (image_of W.BITS k (W.words im.new)) }
{
    let done = dispatch::perform::perform(im, k, r, free);
    answers[2 * i] = request::answer::number(done.answer);
    answers[2 * i + 1] = request::answer::value(done.answer);
    done.free
}

// All records, in order: one reader goes from the first to the last, and the free granules are counted from step to step.
pub fn run_counted<W: Format>(
    im: &mut [W],
    k: usize,
    steps: &[u8],
    answers: &mut [W],
    mut free: Free,
)
    requires sized { Sized W.BITS k (W.words im.old) }
    requires undamaged { Undamaged (image_of W.BITS k (W.words im.old)) }
    requires record_length_len { (length steps.now % record_bytes W.BITS ≡ 0) × (length answers.old ≡ 2 * (length steps.now / record_bytes W.BITS)) }
    requires free_value { free ≡ free_of (image_of W.BITS k (W.words im.old)) }
    ensures im_after { image_of W.BITS k (W.words im.new) ≡ after (image_of W.BITS k (W.words im.old)) (run tightest (image_of W.BITS k (W.words im.old)) (records W.BITS steps.now)) }
    ensures answers_after { W.words answers.new ≡ answers_of (run tightest (image_of W.BITS k (W.words im.old)) (records W.BITS steps.now)) }
{
    let mut reader = records::reader::new(steps);
    for i in 0..records::reader::left::<W>(reader) {
        let r = records::reader::next::<W>(&mut reader);
        free = one(im, k, r, answers, i, free);
    }
}

// All records; before the first of them the free granules are counted along the runs.
pub fn run_all<W: Format>(im: &mut [W], k: usize, steps: &[u8], answers: &mut [W])
    requires sized { Sized W.BITS k (W.words im.old) }
    requires undamaged { Undamaged (image_of W.BITS k (W.words im.old)) }
    requires record_length_len { (length steps.now % record_bytes W.BITS ≡ 0) × (length answers.old ≡ 2 * (length steps.now / record_bytes W.BITS)) }
    ensures im_after { image_of W.BITS k (W.words im.new) ≡ after (image_of W.BITS k (W.words im.old)) (run tightest (image_of W.BITS k (W.words im.old)) (records W.BITS steps.now)) }
    ensures answers_after { W.words answers.new ≡ answers_of (run tightest (image_of W.BITS k (W.words im.old)) (records W.BITS steps.now)) }
{
    let free = runs::granules::count(im, k);
    run_counted(im, k, steps, answers, free);
}
