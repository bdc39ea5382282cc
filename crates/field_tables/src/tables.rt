// What each field of a record may be, in tables with a row for each kind.
ghost use Rattle.std.specs.Prelude.{◌≡◌, true, not, ◌&&◌, ◌<◌, leb, ltb, eqb};
ghost use Rattle.model.specs.Base.{test_bit};
ghost use Rattle.model.specs.Image.{image_of, owed};
ghost use Rattle.model.specs.Records.{kind_of};
ghost use Rattle.theory.specs.Fields.{bound_at, no_card};
ghost use Rattle.image_laws.specs.Sized.{Sized};
ghost use Rattle.request_laws.specs.Request.{requested, asks_debt, role_digit, role_limit};

use image::word::Word;
use request_laws::{Kind, Request};

// The roles of each field, two bits a kind, with kind 0 lowest: 0 not named, 1 a player or a register, 2 a tracer, 3 any number, a card too. The
// kinds, from the highest down: undirty, due, finish, clean, trace, scan, begin, write, read, drop, hand, barrier, store, load, new, none.
const WHO: u64 = 0b00_00_00_10_10_10_00_01_01_01_01_01_01_01_01_11;

const A: u64 = 0b11_11_00_00_00_01_00_01_01_01_01_00_01_01_01_11;

const B: u64 = 0b00_00_00_00_00_00_00_11_11_00_01_00_11_01_11_11;

const C: u64 = 0b00_00_00_00_00_00_00_11_00_00_01_00_01_11_11_11;

// The kinds whose field is a player who must owe nothing, a bit a kind; a and c never are.
const WHO_OWES_NONE: u64 = 0b0000000111101110;

const B_OWES_NONE: u64 = 0b0000000000100000;

// What a field of kind n stays below, by the roles t.
fn limit_by<W: Word>(t: u64, n: usize) -> usize
    requires { n < 16 }
    ensures { result ≡ role_limit W.BITS (role_digit t n) }
{
    let role = (t >> (2 * n as u64)) & 3;
    match role {
        0 => 0,
        1 => 16,
        2 => 8,
        _ => W::VALUES,
    }
}

// Field i (who, a, b, c) of kind n.
pub fn limit<W: Word>(n: usize, i: usize) -> usize
    requires { (n < 16) × (i < 4) }
    ensures { result ≡ bound_at W.BITS (kind_of n) i }
{
    match i {
        0 => limit_by::<W>(WHO, n),
        1 => limit_by::<W>(A, n),
        2 => limit_by::<W>(B, n),
        _ => limit_by::<W>(C, n),
    }
}

fn has_kind(t: u64, n: usize) -> bool
    requires { n < 16 }
    ensures { result ≡ test_bit t n }
{
    (t >> (n as u64)) & 1 == 1
}

fn asks_debt(n: usize, i: usize) -> bool
    requires { (n < 16) × (i < 4) }
    ensures { result ≡ asks_debt (kind_of n) i }
{
    match i {
        0 => has_kind(WHO_OWES_NONE, n),
        2 => has_kind(B_OWES_NONE, n),
        _ => false,
    }
}

// An unused field is not 0.
pub fn stray(l: usize, x: usize) -> bool
    ensures { result ≡ (eqb l 0 && not (eqb x 0)) }
{
    (l == 0) & (x != 0)
}

// A field reaches its limit.
pub fn beyond(l: usize, x: usize) -> bool
    ensures { result ≡ (ltb 0 l && leb l x) }
{
    (0 < l) & (l <= x)
}

// Of cards, apart from the table: only undirty names one, and all other kinds would pay for it.
pub fn no_card(k: usize, r: Request) -> bool
    requires { r.kind < 16 }
    ensures { result ≡ no_card k (requested r) (kind_of r.kind) }
{
    (r.kind == usize::from(Kind::Undirty)) & (k <= r.a)
}

// Field i of a request of kind n, which is x, is a player who owes and must not.
pub fn owes<W: Word>(im: &[W], k: usize, n: usize, i: usize, x: usize) -> bool
    requires sized { Sized W.BITS k (W.words im.now) }
    requires n_bound { (n < 16) × (i < 4) }
    requires x_bound { asks_debt (kind_of n) i ≡ true → x < 16 }
    ensures { result ≡ (asks_debt (kind_of n) i && not (eqb (owed (image_of W.BITS k (W.words im.now)) x) 0)) }
{
    if asks_debt(n, i) {
        return image::sections::owed(im, k, x).value() != 0;
    }
    false
}
