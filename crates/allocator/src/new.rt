// New: an object at the start of the tightest run that suffices.
ghost use Rattle.std.specs.Prelude.{◌≡◌, ◌<◌};
ghost use Rattle.model.specs.Image.{image_of, owed};
ghost use Rattle.model.specs.Mutate.{tightest};
ghost use Rattle.model.specs.Steps.{step};
ghost use Rattle.theory.specs.Lines.{Sound};
ghost use Rattle.image_laws.specs.Sized.{Sized};
ghost use Rattle.request_laws.specs.Answer.{asked, done_of};
ghost use Rattle.runs_laws.specs.Granules.{free_of};

use image::word::Word;
use request_laws::Refusal;
use runs::counted::Counted;
use runs_laws::Free;

pub fn new<W: Word>(
    im: &mut [W],
    k: usize,
    p: usize,
    a: usize,
    b: usize,
    c: usize,
    free: Free,
) -> Counted<W>
    requires sized { Sized W.BITS k (W.words im.old) }
    requires sound { Sound (image_of W.BITS k (W.words im.old)) }
    requires p_bound { (p < 16) × (a < 16) }
    requires p_value { owed (image_of W.BITS k (W.words im.old)) p ≡ 0 }
    requires free_value { free ≡ free_of (image_of W.BITS k (W.words im.old)) }
    ensures im_after { done_of W.value result.answer (image_of W.BITS k (W.words im.new)) ≡ step tightest (image_of W.BITS k (W.words im.old)) (asked 1 p a b c) }
    ensures free_value_2 { result.free ≡ free_of (image_of W.BITS k (W.words im.new)) }
{
    if b == 0 || 1024 < b || 4 * b - 2 < c {
        let answer = Err(Refusal::BadSize);
        return Counted { answer, free };
    }
    let room = runs::chain::find_room(im, k, b);
    let g = room.run;
    if g == 0 {
        let answer = Err(Refusal::NoRoom);
        return Counted { answer, free };
    }
    let free = taken_runs::taking::take_run(im, k, g, room.before, b, free);
    taken_runs::taking::make_object(im, k, p, a, b, c, g);
    let answer = Ok(W::of(g));
    Counted { answer, free }
}
