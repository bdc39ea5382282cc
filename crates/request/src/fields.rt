// The fields of a request, tested before its step: numbers 3, 4 and 5.
ghost use Rattle.std.specs.Prelude.{◌≡◌, false, ◌<◌, IfOk};
ghost use Rattle.model.specs.Image.{image_of};
ghost use Rattle.model.specs.Records.{kind_of};
ghost use Rattle.model.specs.Steps.{unnamed, off_desk, owing};
ghost use Rattle.theory.specs.Fields.{beyond_limit};
ghost use Rattle.image_laws.specs.Sized.{Sized};
ghost use Rattle.request_laws.specs.Kind.{kind_number};
ghost use Rattle.request_laws.specs.Request.{requested, InRange, admission_of, granted};

use field_tables::tables;
use image::word::Word;
use request_laws::{Kind, Refusal, Request};

// Number 3, of a kind that there is.
fn some_stray<W: Word>(kind: Kind, r: Request) -> bool
    requires { r.kind ≡ kind_number kind }
    ensures { result ≡ unnamed (requested r) (kind_of r.kind) }
{
    let n = usize::from(kind);
    let w = tables::stray(tables::limit::<W>(n, 0), r.who);
    let a = tables::stray(tables::limit::<W>(n, 1), r.a);
    let b = tables::stray(tables::limit::<W>(n, 2), r.b);
    let c = tables::stray(tables::limit::<W>(n, 3), r.c);
    (r.zeros != 0) | (w | a | b | c)
}

// Number 4, but for cards.
fn some_beyond<W: Word>(kind: Kind, r: Request) -> bool
    requires { r.kind ≡ kind_number kind }
    ensures { result ≡ beyond_limit W.BITS (requested r) (kind_of r.kind) }
{
    let n = usize::from(kind);
    let w = tables::beyond(tables::limit::<W>(n, 0), r.who);
    let a = tables::beyond(tables::limit::<W>(n, 1), r.a);
    let b = tables::beyond(tables::limit::<W>(n, 2), r.b);
    let c = tables::beyond(tables::limit::<W>(n, 3), r.c);
    w | a | b | c
}

// Number 5, of a request whose fields are on the desk.
fn some_owing<W: Word>(im: &[W], k: usize, kind: Kind, r: Request) -> bool
    requires sized { Sized W.BITS k (W.words im.now) }
    requires named { r.kind ≡ kind_number kind }
    requires on_desk { off_desk (requested r) k (kind_of r.kind) ≡ false }
    ensures { result ≡ owing (image_of W.BITS k (W.words im.now)) (requested r) (kind_of r.kind) }
{
    let n = usize::from(kind);
    let w = tables::owes(im, k, n, 0, r.who);
    let a = tables::owes(im, k, n, 1, r.a);
    let b = tables::owes(im, k, n, 2, r.b);
    let c = tables::owes(im, k, n, 3, r.c);
    w | a | b | c
}

// The kind of a request, if its fields let it pass.
pub fn admit<W: Word>(im: &[W], k: usize, r: Request) -> Result<Kind, Refusal>
    requires sized { Sized W.BITS k (W.words im.now) }
    requires in_range { InRange W.BITS r }
    ensures admission { granted result ≡ admission_of (image_of W.BITS k (W.words im.now)) (requested r) }
    ensures named { IfOk result (λ kind. r.kind ≡ kind_number kind) }
{
    let kind = Kind::try_from(r.kind)?;
    if some_stray::<W>(kind, r) {
        return Err(Refusal::Unknown);
    }
    if some_beyond::<W>(kind, r) | tables::no_card(k, r) {
        return Err(Refusal::OffDesk);
    }
    if some_owing(im, k, kind, r) {
        return Err(Refusal::Owing);
    }
    Ok(kind)
}
