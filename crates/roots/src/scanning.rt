// Kind 10: "player a's registers are reached in rising order, and it counts as scanned".
ghost use Rattle.std.specs.Prelude.{◌≡◌, ◌*◌, ◌<◌, eqb, take, drop};
ghost use Rattle.model.specs.Image.{image_of, scanned};
ghost use Rattle.model.specs.Collect.{reach_all, scan_player};
ghost use Rattle.model.specs.Mutate.{tightest};
ghost use Rattle.model.specs.Steps.{step};
ghost use Rattle.theory.specs.Lines.{Lines, Sound};
ghost use Rattle.image_laws.specs.Sized.{Sized};
ghost use Rattle.request_laws.specs.Answer.{asked, done_of};
ghost use Rattle.collector_laws.specs.Outcome.{done_unless};

use image::word::Word;
use request_laws::Refusal;

#[tactic(auto, using(collector_laws::proofs::Scanning::scan_first, collector_laws::proofs::Scanning::scan_reg, collector_laws::proofs::Scanning::scan_end))]
fn reach_registers<W: Word>(im: &mut [W], k: usize, t: usize, p: usize)
    requires sized { Sized W.BITS k (W.words im.old) }
    requires lines { Lines (image_of W.BITS k (W.words im.old)) }
    requires t_bound { (t < 8) × (p < 16) }
    ensures { image_of W.BITS k (W.words im.new) ≡ reach_all (image_of W.BITS k (W.words im.old)) t (take 16 (drop (16 * p) (image_of W.BITS k (W.words im.old)).regs)) }
{
    for r in 0..16 {
        let g = image::sections::reg(im, k, p, r);
        reach::reaching::reach(im, k, t, g);
    }
}

#[tactic(auto, using(collector_laws::proofs::Scanning::scanned_already, collector_laws::proofs::Scanning::scanned_now))]
fn scan_player<W: Word>(im: &mut [W], k: usize, t: usize, p: usize) -> Result<W, Refusal>
    requires sized { Sized W.BITS k (W.words im.old) }
    requires lines { Lines (image_of W.BITS k (W.words im.old)) }
    requires t_bound { (t < 8) × (p < 16) }
    ensures { done_of W.value result (image_of W.BITS k (W.words im.new)) ≡ done_unless (eqb (scanned (image_of W.BITS k (W.words im.old)) p) 1) (image_of W.BITS k (W.words im.old)) (scan_player (image_of W.BITS k (W.words im.old)) t p) }
{
    if image::sections::scanned(im, k, p).value() == 1 {
        return Err(Refusal::NothingToDo);
    }
    reach_registers(im, k, t, p);
    image::sections::set_scanned(im, k, p);
    Ok(W::of(0))
}

#[tactic(auto, using(collector_laws::proofs::Steps::scan_refused, collector_laws::proofs::Steps::scan_goes))]
pub fn scan<W: Word>(im: &mut [W], k: usize, t: usize, p: usize) -> Result<W, Refusal>
    requires sized { Sized W.BITS k (W.words im.old) }
    requires sound { Sound (image_of W.BITS k (W.words im.old)) }
    requires t_bound { (t < 8) × (p < 16) }
    ensures { done_of W.value result (image_of W.BITS k (W.words im.new)) ≡ step tightest (image_of W.BITS k (W.words im.old)) (asked 10 t p 0 0) }
{
    if image::sections::running(im, k).value() == 0 {
        return Err(Refusal::WrongPhase);
    }
    scan_player(im, k, t, p)
}
