// Entries: no object is entered twice, and whether one is entered. A set of bits tells it, and where granules share bits, a look at the entries.
ghost use Rattle.std.specs.Prelude.{◌≡◌, ◌+◌, ◌*◌, ◌≤◌, ◌<◌, replicate, take, drop};
ghost use Rattle.model.specs.Base.{elem, distinct};
ghost use Rattle.model.specs.Image.{image_of, entries_of, count, entries};
ghost use Rattle.model.specs.Undamaged.{entered};
ghost use Rattle.image_laws.specs.Sized.{Sized};
ghost use Rattle.soundness_laws.specs.Tests.{Packed};
ghost use Rattle.soundness_laws.specs.Entered.{entries_upto, set_words, HoldingOnce, EnteredSet};

use image::word::Word;
use sets::{APART, SEEN};

// The most cards of a store in which no two granules share a bit.
const FEW_CARDS: usize = APART / 64;

// ---- a look at the entries

// The first n of packet p.
pub fn in_packet<W: Word>(im: &[W], k: usize, p: usize, n: usize, g: usize) -> bool
    requires sized { Sized W.BITS k (W.words im.now) }
    requires p_bound { (p < 32) × (n ≤ 30) }
    ensures { result ≡ elem g (take n (drop (32 * p + 2) (image_of W.BITS k (W.words im.now)).packets)) }
{
    let mut found = false;
    for e in 0..n {
        found = found | (g == image::sections::packet_word(im, k, 32 * p + 2 + e).value());
    }
    found
}

// Those of the first n packets.
pub fn in_packets<W: Word>(im: &[W], k: usize, n: usize, g: usize) -> bool
    requires sized { Sized W.BITS k (W.words im.now) }
    requires packed { Packed (image_of W.BITS k (W.words im.now)) }
    requires n_bound { n ≤ 32 }
    ensures { result ≡ elem g (entries_of n (image_of W.BITS k (W.words im.now)).packets) }
{
    let mut found = false;
    for p in 0..n {
        let c = image::sections::packet_word(im, k, 32 * p).value();
        found = found | in_packet(im, k, p, c, g);
    }
    found
}

// ---- no object is entered twice: `ok` says so of the entries before, which the set holds

fn add_entry<W: Word>(im: &[W], k: usize, p: usize, e: usize, ok: bool, seen: &mut [u64]) -> bool
    requires sized { Sized W.BITS k (W.words im.now) }
    requires packed { Packed (image_of W.BITS k (W.words im.now)) }
    requires p_bound { (p < 32) × (e < count (image_of W.BITS k (W.words im.now)) p) }
    requires holding_once { HoldingOnce (64 * k) (entries_upto (image_of W.BITS k (W.words im.now)).packets p e) ok seen.old }
    ensures { HoldingOnce (64 * k) (entries_upto (image_of W.BITS k (W.words im.now)).packets p (e + 1)) result seen.new }
{
    let g = image::sections::packet_word(im, k, 32 * p + 2 + e).value();
    if sets::first_time(seen, g % APART) {
        return ok;
    }
    if k <= FEW_CARDS {
        return false;
    }
    ok & !(in_packets(im, k, p, g) | in_packet(im, k, p, e, g))
}

fn packet_once<W: Word>(im: &[W], k: usize, p: usize, before: bool, seen: &mut [u64]) -> bool
    requires sized { Sized W.BITS k (W.words im.now) }
    requires packed { Packed (image_of W.BITS k (W.words im.now)) }
    requires p_bound { p < 32 }
    requires holding_once { HoldingOnce (64 * k) (entries_of p (image_of W.BITS k (W.words im.now)).packets) before seen.old }
    ensures { HoldingOnce (64 * k) (entries_of (p + 1) (image_of W.BITS k (W.words im.now)).packets) result seen.new }
{
    let n = image::sections::packet_word(im, k, 32 * p).value();
    let mut ok = before;
    for e in 0..n {
        ok = add_entry(im, k, p, e, ok, seen);
    }
    ok
}

pub fn all_once<W: Word>(im: &[W], k: usize, seen: &mut [u64]) -> bool
    requires sized { Sized W.BITS k (W.words im.now) }
    requires packed { Packed (image_of W.BITS k (W.words im.now)) }
    requires seen_value { seen.old ≡ replicate set_words 0 }
    ensures { HoldingOnce (64 * k) (entries (image_of W.BITS k (W.words im.now))) result seen.new }
{
    let mut ok = true;
    for p in 0..32 {
        ok = packet_once(im, k, p, ok, seen);
    }
    ok
}

pub fn once_ok<W: Word>(im: &[W], k: usize) -> bool
    requires sized { Sized W.BITS k (W.words im.now) }
    requires packed { Packed (image_of W.BITS k (W.words im.now)) }
    ensures { result ≡ distinct (entries (image_of W.BITS k (W.words im.now))) }
{
    let mut seen = [0; SEEN];
    all_once(im, k, &mut seen)
}

// ---- whether g is entered

#[tactic(auto, using(soundness_laws::proofs::Entered::entered_no, soundness_laws::proofs::Entered::entered_yes, soundness_laws::proofs::Entered::entered_look))]
pub fn is_entered<W: Word>(im: &[W], k: usize, set: &[u64], g: usize) -> bool
    requires sized { Sized W.BITS k (W.words im.now) }
    requires entered_set { EnteredSet k (image_of W.BITS k (W.words im.now)) set.now }
    requires g_bound { g < 64 * k }
    ensures { result ≡ entered (image_of W.BITS k (W.words im.now)) g }
{
    if sets::in_set(set, g % APART) {
        if k <= FEW_CARDS {
            return true;
        }
        return in_packets(im, k, 32, g);
    }
    false
}
