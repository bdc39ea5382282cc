// Registers and links name targets: nil, or starts.
#![tactic(auto)]

ghost use Rattle.std.specs.Prelude.{◌≡◌, ◌+◌, ◌*◌, ◌≤◌, ◌<◌, min};
ghost use Rattle.model.specs.Base.{all};
ghost use Rattle.model.specs.Image.{image_of};
ghost use Rattle.model.specs.Undamaged.{reg_ok};
ghost use Rattle.image_laws.specs.Sized.{Sized};
ghost use Rattle.soundness_laws.specs.Sets.{Named};
ghost use Rattle.soundness_laws.specs.Tests.{link_ok};

use image::section::Section;
use image::word::Word;

pub mod small; // small.rt: objects of one granule, side by side

// ---- registers

pub fn reg_ok<W: Word>(im: &[W], k: usize, table: &[u64], i: usize) -> bool
    requires sized { Sized W.BITS k (W.words im.now) }
    requires named { Named W.BITS (image_of W.BITS k (W.words im.now)).starts table.now }
    requires i_bound { i < 256 }
    ensures { result ≡ reg_ok (image_of W.BITS k (W.words im.now)) i }
{
    sets::is_target(im, k, table, image::sections::reg_word(im, k, i).value())
}

// How many registers there are to ask: mostly those behind the first player's hold nothing.
fn regs_to_ask<W: Word>(im: &[W], k: usize) -> usize
    requires { Sized W.BITS k (W.words im.now) }
    ensures { (result ≤ 256) × (all 256 (reg_ok (image_of W.BITS k (W.words im.now))) ≡ all result (reg_ok (image_of W.BITS k (W.words im.now)))) }
{
    if image::sections::reg_word(im, k, 16).value() == 0 {
        if stretches::parts::zero_part(im, k, Section::Regs, 16, 256) {
            return 16;
        }
    }
    256
}

pub fn regs_ok<W: Word>(im: &[W], k: usize, table: &[u64]) -> bool
    requires sized { Sized W.BITS k (W.words im.now) }
    requires named { Named W.BITS (image_of W.BITS k (W.words im.now)).starts table.now }
    ensures { result ≡ all 256 (reg_ok (image_of W.BITS k (W.words im.now))) }
{
    let n = regs_to_ask(im, k);
    let mut ok = true;
    for i in 0..n {
        ok = ok & reg_ok(im, k, table, i);
    }
    ok
}

// ---- links of the object at g

pub fn link_ok<W: Word>(im: &[W], k: usize, table: &[u64], g: usize, i: usize) -> bool
    requires sized { Sized W.BITS k (W.words im.now) }
    requires named { Named W.BITS (image_of W.BITS k (W.words im.now)).starts table.now }
    requires i_bound { 4 * g + 2 + i < 256 * k }
    ensures { result ≡ link_ok (image_of W.BITS k (W.words im.now)) g i }
{
    sets::is_target(im, k, table, image::sections::word(im, k, g, 2 + i).value())
}

// The links in the object's first granule, with no branch: most objects have few.
pub fn first_links<W: Word>(im: &[W], k: usize, table: &[u64], g: usize, n: usize) -> bool
    requires sized { Sized W.BITS k (W.words im.now) }
    requires named { Named W.BITS (image_of W.BITS k (W.words im.now)).starts table.now }
    requires g_bound { g < 64 * k }
    ensures { result ≡ all (min 2 n) (link_ok (image_of W.BITS k (W.words im.now)) g) }
{
    ((n < 1) | link_ok(im, k, table, g, 0)) & ((n < 2) | link_ok(im, k, table, g, 1))
}

pub fn links_ok<W: Word>(im: &[W], k: usize, table: &[u64], g: usize, n: usize) -> bool
    requires sized { Sized W.BITS k (W.words im.now) }
    requires named { Named W.BITS (image_of W.BITS k (W.words im.now)).starts table.now }
    requires n_bound { 4 * g + 2 + n ≤ 256 * k }
    ensures { result ≡ all n (link_ok (image_of W.BITS k (W.words im.now)) g) }
{
    let mut ok = first_links(im, k, table, g, n);
    for i in sets::least(2, n)..n {
        ok = ok & link_ok(im, k, table, g, i);
    }
    ok
}
