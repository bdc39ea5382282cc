// A request's step: its fields are tested in one place, then it goes by its kind.
ghost use Rattle.std.specs.Prelude.{◌≡◌};
ghost use Rattle.model.specs.Image.{image_of};
ghost use Rattle.model.specs.Mutate.{tightest};
ghost use Rattle.model.specs.Records.{kind_of};
ghost use Rattle.model.specs.Steps.{step};
ghost use Rattle.theory.specs.Lines.{Undamaged};
ghost use Rattle.image_laws.specs.Sized.{Sized};
ghost use Rattle.request_laws.specs.Answer.{done_of};
ghost use Rattle.request_laws.specs.Kind.{kind_number};
ghost use Rattle.request_laws.specs.Passed.{Passed};
ghost use Rattle.request_laws.specs.Request.{requested, InRange};
ghost use Rattle.runs_laws.specs.Granules.{free_of};

use image::word::Word;
use request_laws::{Kind, Request};
use runs::counted::Counted;
use runs_laws::Free;

// The step of a request that numbers 3 to 5 let pass, by its kind, and the free granules then. Each kind takes fields of its own, so a table of
// functions or a closure for each would want one shape for all, and its equation a case for each all the same.
fn dispatch<W: Word>(im: &mut [W], k: usize, kind: Kind, r: Request, free: Free) -> Counted<W>
    requires sized { Sized W.BITS k (W.words im.old) }
    requires undamaged { Undamaged (image_of W.BITS k (W.words im.old)) }
    requires in_range { InRange W.BITS r }
    requires named { r.kind ≡ kind_number kind }
    requires passed { Passed (image_of W.BITS k (W.words im.old)) (requested r) (kind_of r.kind) }
    requires free_value { free ≡ free_of (image_of W.BITS k (W.words im.old)) }
    ensures im_after { done_of W.value result.answer (image_of W.BITS k (W.words im.new)) ≡ step tightest (image_of W.BITS k (W.words im.old)) (requested r) }
    ensures free_value_2 { result.free ≡ free_of (image_of W.BITS k (W.words im.new)) }
{
    let answer = match kind {
        Kind::New => return allocator::new::new(im, k, r.who, r.a, r.b, r.c, free),
        Kind::Finish => return finish::step::finish(im, k, free),
        Kind::Load => mutator_links::links::load(im, k, r.who, r.a, r.b, r.c),
        Kind::Store => mutator_links::links::store(im, k, r.who, r.a, r.b, r.c),
        Kind::Barrier => mutator_registers::registers::barrier(im, k, r.who),
        Kind::Hand => mutator_registers::registers::hand(im, k, r.who, r.a, r.b, r.c),
        Kind::Drop => mutator_registers::registers::drop(im, k, r.who, r.a),
        Kind::Read => mutator_levels::levels::read(im, k, r.who, r.a, r.b),
        Kind::Write => mutator_levels::levels::write(im, k, r.who, r.a, r.b, r.c),
        Kind::Begin => roots::begin::begin(im, k),
        Kind::Scan => roots::scanning::scan(im, k, r.who, r.a),
        Kind::Trace => marking::tracing::trace(im, k, r.who),
        Kind::Clean => card_cleaning::cleaning::clean(im, k, r.who),
        Kind::Due => runs::due::due(free.usable, r.a),
        Kind::Undirty => undirty::undirty(im, k, r.a),
    };
    Counted { answer, free }
}

pub fn perform<W: Word>(im: &mut [W], k: usize, r: Request, free: Free) -> Counted<W>
    requires sized { Sized W.BITS k (W.words im.old) }
    requires undamaged { Undamaged (image_of W.BITS k (W.words im.old)) }
    requires in_range { InRange W.BITS r }
    requires free_value { free ≡ free_of (image_of W.BITS k (W.words im.old)) }
    ensures im_after { done_of W.value result.answer (image_of W.BITS k (W.words im.new)) ≡ step tightest (image_of W.BITS k (W.words im.old)) (requested r) }
    ensures free_value_2 { result.free ≡ free_of (image_of W.BITS k (W.words im.new)) }
{
    match request::fields::admit(im, k, r) {
        Ok(kind) => dispatch(im, k, kind, r, free),
        Err(refusal) => {
            let answer = Err(refusal);
            Counted { answer, free }
        }
    }
}
