// Packets: counts, zeros, and entries that are marked.
ghost use Rattle.std.specs.Prelude.{◌≡◌, ◌≤◌, ◌<◌};
ghost use Rattle.model.specs.Base.{all};
ghost use Rattle.model.specs.Image.{image_of};
ghost use Rattle.image_laws.specs.Sized.{Sized};
ghost use Rattle.soundness_laws.specs.Tests.{entry_marked, packet_ok_at};

use image::section::Section;
use image::word::Word;

#[tactic(auto, using(soundness_laws::proofs::Packets::marked_entry))]
pub fn entry_ok<W: Word>(im: &[W], k: usize, p: usize, e: usize) -> bool
    requires sized { Sized W.BITS k (W.words im.now) }
    requires p_bound { (p < 32) × (e < 30) }
    ensures { result ≡ entry_marked (image_of W.BITS k (W.words im.now)) p e }
{
    let x = image::sections::packet_word(im, k, 32 * p + 2 + e).value();
    sets::marked_at(im, k, x)
}

pub fn entries_ok<W: Word>(im: &[W], k: usize, p: usize, n: usize) -> bool
    requires sized { Sized W.BITS k (W.words im.now) }
    requires p_bound { (p < 32) × (n ≤ 30) }
    ensures { result ≡ all n (entry_marked (image_of W.BITS k (W.words im.now)) p) }
{
    quantifiers::all(n, |i| entry_ok(im, k, p, i))
}

#[tactic(auto, using(soundness_laws::proofs::Packets::packet_many, soundness_laws::proofs::Packets::packet_all))]
pub fn packet_ok<W: Word>(im: &[W], k: usize, p: usize) -> bool
    requires sized { Sized W.BITS k (W.words im.now) }
    requires p_bound { p < 32 }
    ensures { result ≡ packet_ok_at (image_of W.BITS k (W.words im.now)) p }
{
    let n = image::sections::packet_word(im, k, 32 * p).value();
    let z = image::sections::packet_word(im, k, 32 * p + 1).value();
    if 30 < n {
        return false;
    }
    (z == 0)
        & entries_ok(im, k, p, n)
        & stretches::parts::zero_part(im, k, Section::Packets, 32 * p + 2 + n, 32 * p + 32)
}

pub fn packets_ok<W: Word>(im: &[W], k: usize) -> bool
    requires { Sized W.BITS k (W.words im.now) }
    ensures { result ≡ all 32 (packet_ok_at (image_of W.BITS k (W.words im.now))) }
{
    quantifiers::all(32, |i| packet_ok(im, k, i))
}
