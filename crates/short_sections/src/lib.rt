// Lines of "undamaged" on the short sections: cards, tracers, players, general words.
#![tactic(auto)]

ghost use Rattle.std.specs.Prelude.{◌≡◌, ◌<◌};
ghost use Rattle.model.specs.Base.{all};
ghost use Rattle.model.specs.Image.{image_of};
ghost use Rattle.model.specs.Undamaged.{card_ok, player_ok, general_ok};
ghost use Rattle.image_laws.specs.Sized.{Sized};
ghost use Rattle.soundness_laws.specs.Tests.{not_scanned, idle};

use image::section::Section;
use image::word::Word;

pub mod hands; // hands.rt: objects and cards in hand, packets held

// ---- cards and players

#[tactic(auto, unfolding(model::specs::Undamaged::card_ok))]
pub fn card_ok<W: Word>(im: &[W], k: usize, c: usize) -> bool
    requires sized { Sized W.BITS k (W.words im.now) }
    requires c_lt_k { c < k }
    ensures { result ≡ card_ok (image_of W.BITS k (W.words im.now)) c }
{
    image::sections::card(im, k, c).value() <= 3
}

pub fn cards_ok<W: Word>(im: &[W], k: usize) -> bool
    requires { Sized W.BITS k (W.words im.now) }
    ensures { result ≡ all k (card_ok (image_of W.BITS k (W.words im.now))) }
{
    quantifiers::all(k, |i| card_ok(im, k, i))
}

#[tactic(auto, using(soundness_laws::proofs::Lines::player_lines))]
pub fn player_ok<W: Word>(im: &[W], k: usize, p: usize) -> bool
    requires sized { Sized W.BITS k (W.words im.now) }
    requires p_bound { p < 16 }
    ensures { result ≡ player_ok (image_of W.BITS k (W.words im.now)) p }
{
    let o = image::sections::owed(im, k, p).value();
    let s = image::sections::scanned(im, k, p).value();
    (o <= k) & (s <= 1)
}

pub fn players_ok<W: Word>(im: &[W], k: usize) -> bool
    requires { Sized W.BITS k (W.words im.now) }
    ensures { result ≡ all 16 (player_ok (image_of W.BITS k (W.words im.now))) }
{
    quantifiers::all(16, |i| player_ok(im, k, i))
}

// ---- general

#[tactic(auto, using(soundness_laws::proofs::Lines::general_lines))]
pub fn general_ok<W: Word>(im: &[W], k: usize) -> bool
    requires { Sized W.BITS k (W.words im.now) }
    ensures { result ≡ general_ok (image_of W.BITS k (W.words im.now)) }
{
    (image::sections::running(im, k).value() <= 1)
        & stretches::parts::zero_part(im, k, Section::General, 2, 8)
}

// ---- no cycle

#[tactic(auto, unfolding(soundness_laws::specs::Tests::not_scanned))]
pub fn is_unscanned<W: Word>(im: &[W], k: usize, p: usize) -> bool
    requires sized { Sized W.BITS k (W.words im.now) }
    requires p_bound { p < 16 }
    ensures { result ≡ not_scanned (image_of W.BITS k (W.words im.now)) p }
{
    image::sections::scanned(im, k, p).value() == 0
}

pub fn all_unscanned<W: Word>(im: &[W], k: usize) -> bool
    requires { Sized W.BITS k (W.words im.now) }
    ensures { result ≡ all 16 (not_scanned (image_of W.BITS k (W.words im.now))) }
{
    quantifiers::all(16, |i| is_unscanned(im, k, i))
}

pub fn is_idle<W: Word>(im: &[W], k: usize) -> bool
    requires { Sized W.BITS k (W.words im.now) }
    ensures { result ≡ idle (image_of W.BITS k (W.words im.now)) }
{
    stretches::parts::zero_section(im, k, Section::Marks)
        & stretches::parts::zero_section(im, k, Section::Packets)
        & stretches::parts::zero_section(im, k, Section::Tracers)
        & all_unscanned(im, k)
        & stretches::parts::zero_section(im, k, Section::Counts)
}
