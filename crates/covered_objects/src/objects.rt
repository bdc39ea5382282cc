// Links of a marked object to unmarked ones, and what covers them.
ghost use Rattle.std.specs.Prelude.{◌≡◌, true, ◌+◌, ◌*◌, ◌≤◌, ◌<◌, min};
ghost use Rattle.model.specs.Base.{all, any};
ghost use Rattle.model.specs.Image.{image_of, marked};
ghost use Rattle.image_laws.specs.Sized.{Sized};
ghost use Rattle.soundness_laws.specs.Sets.{Named};
ghost use Rattle.soundness_laws.specs.Entered.{EnteredSet};
ghost use Rattle.judge_laws.specs.Order.{Coverable, hand_comes, card_comes, holds, owes_holding, plain, coming, late, object_covered};

use image::word::Word;

// ---- hands

pub fn hand_comes<W: Word>(im: &[W], k: usize, g: usize, i: usize, t: usize) -> bool
    requires sized { Sized W.BITS k (W.words im.now) }
    requires t_bound { t < 8 }
    ensures { result ≡ hand_comes (image_of W.BITS k (W.words im.now)) g i t }
{
    let h = image::sections::tracer_word(im, k, 8 * t + 2).value();
    let n = image::sections::tracer_word(im, k, 8 * t + 3).value();
    (h == g) & (n <= i)
}

pub fn link_to_come<W: Word>(im: &[W], k: usize, g: usize, j: usize) -> bool
    requires { Sized W.BITS k (W.words im.now) }
    ensures { result ≡ any 8 (hand_comes (image_of W.BITS k (W.words im.now)) g j) }
{
    quantifiers::any(8, |i| hand_comes(im, k, g, j, i))
}

pub fn card_comes<W: Word>(im: &[W], k: usize, g: usize, t: usize) -> bool
    requires sized { Sized W.BITS k (W.words im.now) }
    requires t_bound { t < 8 }
    ensures { result ≡ card_comes (image_of W.BITS k (W.words im.now)) g t }
{
    let c = image::sections::tracer_word(im, k, 8 * t + 4).value();
    let n = image::sections::tracer_word(im, k, 8 * t + 5).value();
    (c == g / 64 + 1) & (n <= g)
}

pub fn granule_to_come<W: Word>(im: &[W], k: usize, g: usize) -> bool
    requires { Sized W.BITS k (W.words im.now) }
    ensures { result ≡ any 8 (card_comes (image_of W.BITS k (W.words im.now)) g) }
{
    quantifiers::any(8, |i| card_comes(im, k, g, i))
}

// ---- players

#[tactic(auto, unfolding(judge_laws::specs::Order::holds))]
pub fn is_held<W: Word>(im: &[W], k: usize, p: usize, a: usize, q: usize) -> bool
    requires sized { Sized W.BITS k (W.words im.now) }
    requires p_bound { (p < 16) × (q < 16) }
    ensures { result ≡ holds (image_of W.BITS k (W.words im.now)) p a q }
{
    image::sections::reg(im, k, p, q).value() == a
}

pub fn held_by<W: Word>(im: &[W], k: usize, p: usize, a: usize) -> bool
    requires sized { Sized W.BITS k (W.words im.now) }
    requires p_bound { p < 16 }
    ensures { result ≡ any 16 (holds (image_of W.BITS k (W.words im.now)) p a) }
{
    quantifiers::any(16, |i| is_held(im, k, p, a, i))
}

pub fn is_owing<W: Word>(im: &[W], k: usize, g: usize, a: usize, p: usize) -> bool
    requires sized { Sized W.BITS k (W.words im.now) }
    requires p_bound { p < 16 }
    ensures { result ≡ owes_holding (image_of W.BITS k (W.words im.now)) g a p }
{
    if image::sections::owed(im, k, p).value() != g / 64 + 1 {
        return false;
    }
    held_by(im, k, p, a)
}

pub fn owed_with<W: Word>(im: &[W], k: usize, g: usize, a: usize) -> bool
    requires { Sized W.BITS k (W.words im.now) }
    ensures { result ≡ any 16 (owes_holding (image_of W.BITS k (W.words im.now)) g a) }
{
    quantifiers::any(16, |i| is_owing(im, k, g, a, i))
}

// ---- an object, and one of its links

pub fn is_coming<W: Word>(im: &[W], k: usize, entered: &[u64], g: usize) -> bool
    requires sized { Sized W.BITS k (W.words im.now) }
    requires entered_set { EnteredSet k (image_of W.BITS k (W.words im.now)) entered.now }
    requires g_bound { g < 64 * k }
    ensures { result ≡ coming (image_of W.BITS k (W.words im.now)) g }
{
    if bits_and_cards::cards::is_dirty(im, k, g / 64) {
        return true;
    }
    if entries::entered::is_entered(im, k, entered, g) {
        return true;
    }
    granule_to_come(im, k, g)
}

pub fn is_plain<W: Word>(im: &[W], k: usize, table: &[u64], g: usize, j: usize) -> bool
    requires sized { Sized W.BITS k (W.words im.now) }
    requires named { Named W.BITS (image_of W.BITS k (W.words im.now)).marks table.now }
    requires j_bound { 4 * g + 2 + j < 256 * k }
    ensures { result ≡ plain (image_of W.BITS k (W.words im.now)) g j }
{
    let a = image::sections::word(im, k, g, 2 + j).value();
    sets::nil_or_marked(im, k, table, a)
}

// The first two words for links stand in every object: both are asked, so that no branch hangs on how many links there are.
pub fn first_plain<W: Word>(im: &[W], k: usize, table: &[u64], g: usize, n: usize) -> bool
    requires sized { Sized W.BITS k (W.words im.now) }
    requires named { Named W.BITS (image_of W.BITS k (W.words im.now)).marks table.now }
    requires g_bound { g < 64 * k }
    ensures { result ≡ all (min 2 n) (plain (image_of W.BITS k (W.words im.now)) g) }
{
    ((n < 1) | is_plain(im, k, table, g, 0)) & ((n < 2) | is_plain(im, k, table, g, 1))
}

#[tactic(auto, unfolding(model::specs::Base::all))]
pub fn all_plain<W: Word>(im: &[W], k: usize, table: &[u64], g: usize, n: usize) -> bool
    requires sized { Sized W.BITS k (W.words im.now) }
    requires named { Named W.BITS (image_of W.BITS k (W.words im.now)).marks table.now }
    requires n_bound { 4 * g + 2 + n ≤ 256 * k }
    ensures { result ≡ all n (plain (image_of W.BITS k (W.words im.now)) g) }
{
    let mut ok = first_plain(im, k, table, g, n);
    for i in sets::least(2, n)..n {
        ok &= is_plain(im, k, table, g, i);
    }
    ok
}

pub fn is_late<W: Word>(im: &[W], k: usize, table: &[u64], g: usize, j: usize) -> bool
    requires sized { Sized W.BITS k (W.words im.now) }
    requires named { Named W.BITS (image_of W.BITS k (W.words im.now)).marks table.now }
    requires j_bound { 4 * g + 2 + j < 256 * k }
    ensures { result ≡ late (image_of W.BITS k (W.words im.now)) g j }
{
    let a = image::sections::word(im, k, g, 2 + j).value();
    if is_plain(im, k, table, g, j) {
        return true;
    }
    link_to_come(im, k, g, j) | owed_with(im, k, g, a)
}

pub fn all_late<W: Word>(im: &[W], k: usize, table: &[u64], g: usize, n: usize) -> bool
    requires sized { Sized W.BITS k (W.words im.now) }
    requires named { Named W.BITS (image_of W.BITS k (W.words im.now)).marks table.now }
    requires n_bound { 4 * g + 2 + n ≤ 256 * k }
    ensures { result ≡ all n (late (image_of W.BITS k (W.words im.now)) g) }
{
    quantifiers::all(n, |i| is_late(im, k, table, g, i))
}

pub fn object_covered<W: Word>(im: &[W], k: usize, entered: &[u64], table: &[u64], g: usize) -> bool
    requires sized { Sized W.BITS k (W.words im.now) }
    requires named { Named W.BITS (image_of W.BITS k (W.words im.now)).marks table.now }
    requires coverable { Coverable k (image_of W.BITS k (W.words im.now)) }
    requires entered_set { EnteredSet k (image_of W.BITS k (W.words im.now)) entered.now }
    requires g_bound { (g < 64 * k) × (marked (image_of W.BITS k (W.words im.now)) g ≡ true) }
    ensures { result ≡ object_covered (image_of W.BITS k (W.words im.now)) g }
{
    let n = image::sections::links(im, k, g);
    if all_plain(im, k, table, g, n) {
        return true;
    }
    if is_coming(im, k, entered, g) {
        return true;
    }
    all_late(im, k, table, g, n)
}
