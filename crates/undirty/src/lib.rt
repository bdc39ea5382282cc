// Kind 15, undirty: a card whose objects are all unmarked needs no cleaning, and its state is wiped.
#![tactic(auto)]

ghost use Rattle.std.specs.Prelude.{◌≡◌, ◌<◌};
ghost use Rattle.model.specs.Image.{image_of, clean_state, undirty_card};
ghost use Rattle.model.specs.Mutate.{tightest};
ghost use Rattle.model.specs.Steps.{step};
ghost use Rattle.image_laws.specs.Sized.{Sized};
ghost use Rattle.request_laws.specs.Answer.{asked, done_of};

use image::word::Word;
use request_laws::Refusal;

// "1 to 0 and 3 to 2": two rows of a table, as `dirtied` has two others; one function of four numbers would say neither.
fn cleaned<W: Word>(x: W) -> W
    ensures { W.value result ≡ clean_state (W.value x) }
{
    match x.value() {
        0 => W::of(0),
        1 => W::of(0),
        _ => W::of(2),
    }
}

#[tactic(auto, using(image_laws::proofs::Cards::card_cleaned))]
fn undirty_card<W: Word>(im: &mut [W], k: usize, c: usize)
    requires sized { Sized W.BITS k (W.words im.old) }
    requires c_lt_k { c < k }
    ensures { image_of W.BITS k (W.words im.new) ≡ undirty_card (image_of W.BITS k (W.words im.old)) c }
{
    let x = cleaned(image::sections::card(im, k, c));
    image::sections::set_card(im, k, c, x);
}

#[tactic(auto, using(collector_laws::proofs::Steps::undirty_refused, collector_laws::proofs::Steps::undirty_nothing, collector_laws::proofs::Steps::undirty_goes))]
pub fn undirty<W: Word>(im: &mut [W], k: usize, c: usize) -> Result<W, Refusal>
    requires sized { Sized W.BITS k (W.words im.old) }
    requires c_lt_k { c < k }
    ensures { done_of W.value result (image_of W.BITS k (W.words im.new)) ≡ step tightest (image_of W.BITS k (W.words im.old)) (asked 15 0 c 0 0) }
{
    if image::sections::running(im, k).value() == 0 {
        return Err(Refusal::WrongPhase);
    }
    let dirty = bits_and_cards::cards::is_dirty(im, k, c);
    let marked = image::sections::count(im, k, c).value();
    if dirty & (marked == 0) {
        undirty_card(im, k, c);
        return Ok(W::of(0));
    }
    Err(Refusal::NothingToDo)
}
