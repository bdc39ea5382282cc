// Tracers: packets held, objects in hand, cards in hand.
ghost use Rattle.std.specs.Prelude.{◌≡◌, ◌<◌};
ghost use Rattle.model.specs.Base.{all};
ghost use Rattle.model.specs.Image.{image_of};
ghost use Rattle.model.specs.Undamaged.{hand_ok, hand_card_ok, tracer_ok, held_at, held_once};
ghost use Rattle.image_laws.specs.Sized.{Sized};
ghost use Rattle.soundness_laws.specs.Tests.{apart};

use image::word::Word;

#[tactic(auto, using(soundness_laws::proofs::Hands::hand_nil, soundness_laws::proofs::Hands::hand_out, soundness_laws::proofs::Hands::hand_marked))]
pub fn hand_ok<W: Word>(im: &[W], k: usize, g: usize, i: usize) -> bool
    requires { Sized W.BITS k (W.words im.now) }
    ensures { result ≡ hand_ok (image_of W.BITS k (W.words im.now)) g i }
{
    if g == 0 {
        return i == 0;
    }
    if 64 * k <= g {
        return false;
    }
    bits_and_cards::bits::is_marked(im, k, g) & (i < image::sections::links(im, k, g))
}

#[tactic(auto, using(soundness_laws::proofs::Hands::card_nil, soundness_laws::proofs::Hands::card_no, soundness_laws::proofs::Hands::card_yes))]
pub fn hand_card_ok<W: Word>(im: &[W], k: usize, c: usize, g: usize) -> bool
    requires { Sized W.BITS k (W.words im.now) }
    ensures { result ≡ hand_card_ok (image_of W.BITS k (W.words im.now)) c g }
{
    if c == 0 {
        return g == 0;
    }
    if k < c {
        return false;
    }
    (2 <= image::sections::card(im, k, c - 1).value()) & (64 * (c - 1) <= g) & (g <= 64 * c)
}

pub fn tracer_ok<W: Word>(im: &[W], k: usize, t: usize) -> bool
    requires sized { Sized W.BITS k (W.words im.now) }
    requires t_bound { t < 8 }
    ensures { result ≡ tracer_ok (image_of W.BITS k (W.words im.now)) t }
{
    let a = image::sections::tracer_word(im, k, 8 * t).value();
    let b = image::sections::tracer_word(im, k, 8 * t + 1).value();
    let g = image::sections::tracer_word(im, k, 8 * t + 2).value();
    let i = image::sections::tracer_word(im, k, 8 * t + 3).value();
    let c = image::sections::tracer_word(im, k, 8 * t + 4).value();
    let e = image::sections::tracer_word(im, k, 8 * t + 5).value();
    let y = image::sections::tracer_word(im, k, 8 * t + 6).value();
    let z = image::sections::tracer_word(im, k, 8 * t + 7).value();
    (a <= 32) & (b <= 32) & hand_ok(im, k, g, i) & hand_card_ok(im, k, c, e) & (y == 0) & (z == 0)
}

pub fn tracers_ok<W: Word>(im: &[W], k: usize) -> bool
    requires { Sized W.BITS k (W.words im.now) }
    ensures { result ≡ all 8 (tracer_ok (image_of W.BITS k (W.words im.now))) }
{
    quantifiers::all(8, |i| tracer_ok(im, k, i))
}

// ---- each packet is held in at most one place

#[tactic(auto, unfolding(model::specs::Undamaged::held_at))]
pub fn held_at<W: Word>(im: &[W], k: usize, x: usize) -> W
    requires sized { Sized W.BITS k (W.words im.now) }
    requires x_bound { x < 16 }
    ensures { W.value result ≡ held_at (image_of W.BITS k (W.words im.now)) x }
{
    image::sections::tracer_word(im, k, 8 * (x / 2) + x % 2)
}

#[tactic(auto, unfolding(soundness_laws::specs::Tests::apart))]
pub fn is_apart<W: Word>(im: &[W], k: usize, x: usize, y: usize) -> bool
    requires sized { Sized W.BITS k (W.words im.now) }
    requires x_bound { (x < 16) × (y < 16) }
    ensures { result ≡ apart (image_of W.BITS k (W.words im.now)) x y }
{
    !(held_at(im, k, y).value() == held_at(im, k, x).value())
}

pub fn all_apart<W: Word>(im: &[W], k: usize, x: usize) -> bool
    requires sized { Sized W.BITS k (W.words im.now) }
    requires x_bound { x < 16 }
    ensures { result ≡ all x (apart (image_of W.BITS k (W.words im.now)) x) }
{
    quantifiers::all(x, |i| is_apart(im, k, x, i))
}

#[tactic(auto, using(soundness_laws::proofs::Hands::held_nothing, soundness_laws::proofs::Hands::held_other))]
pub fn held_once<W: Word>(im: &[W], k: usize, x: usize) -> bool
    requires sized { Sized W.BITS k (W.words im.now) }
    requires x_bound { x < 16 }
    ensures { result ≡ held_once (image_of W.BITS k (W.words im.now)) x }
{
    if held_at(im, k, x).value() == 0 {
        return true;
    }
    all_apart(im, k, x)
}

pub fn held_ok<W: Word>(im: &[W], k: usize) -> bool
    requires { Sized W.BITS k (W.words im.now) }
    ensures { result ≡ all 16 (held_once (image_of W.BITS k (W.words im.now))) }
{
    quantifiers::all(16, |i| held_once(im, k, i))
}
