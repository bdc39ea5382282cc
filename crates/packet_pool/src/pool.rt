// The packets that no tracer holds: the emptiest with space, the fullest with entries.
ghost use Rattle.std.specs.Prelude.{◌≡◌, ℕ, Bool, not, ◌≤◌, ◌<◌};
ghost use Rattle.model.specs.Base.{test_bit};
ghost use Rattle.model.specs.Image.{image_of, count};
ghost use Rattle.model.specs.Collect.{emptiest, fullest, has_entries};
ghost use Rattle.theory.specs.Lines.{HeldOk};
ghost use Rattle.image_laws.specs.Sized.{Sized};
ghost use Rattle.collector_laws.specs.Pool.{held_with, held_set, lacks_space};
ghost use Rattle.packet_pool.specs.Walk.{Decides, walk_to};

use image::word::Word;

// Packets as bits: bit p for packet p.
#[tactic(auto, using(collector_laws::proofs::Pool::held_none, collector_laws::proofs::Pool::held_one))]
fn with_packet(s: u32, x: usize) -> u32
    requires { x ≤ 32 }
    ensures { result ≡ held_with s x }
{
    if x == 0 {
        return s;
    }
    s | (1 << (x - 1))
}

fn in_pool(s: u32, p: usize) -> bool
    requires { p < 32 }
    ensures { result ≡ not (test_bit s p) }
{
    (s >> p) & 1 != 1
}

fn held_packets<W: Word>(im: &[W], k: usize) -> u32
    requires sized { Sized W.BITS k (W.words im.now) }
    requires held_ok { HeldOk (image_of W.BITS k (W.words im.now)).tracers }
    ensures { result ≡ held_set (image_of W.BITS k (W.words im.now)) 8 }
{
    let mut s: u32 = 0;
    for t in 0..8 {
        let a = image::sections::tracer_word(im, k, 8 * t).value();
        let b = image::sections::tracer_word(im, k, 8 * t + 1).value();
        s = with_packet(with_packet(s, a), b);
    }
    s
}

#[tactic(auto, unfolding(model::specs::Image::count))]
pub fn count<W: Word>(im: &[W], k: usize, p: usize) -> usize
    requires sized { Sized W.BITS k (W.words im.now) }
    requires p_bound { p < 32 }
    ensures { result ≡ count (image_of W.BITS k (W.words im.now)) p }
{
    image::sections::packet_word(im, k, 32 * p).value()
}

// A held packet, given by its number + 1, has entries.
#[tactic(auto, using(collector_laws::proofs::Pool::no_entries, collector_laws::proofs::Pool::some_entries))]
pub fn has_entries<W: Word>(im: &[W], k: usize, x: usize) -> bool
    requires sized { Sized W.BITS k (W.words im.now) }
    requires x_bound { x ≤ 32 }
    ensures { result ≡ has_entries (image_of W.BITS k (W.words im.now)) x }
{
    if x == 0 {
        return false;
    }
    0 < count(im, k, x - 1)
}

// A packet, given by its number + 1, is absent or full.
#[tactic(auto, using(collector_laws::proofs::Pool::absent, collector_laws::proofs::Pool::present))]
pub fn lacks_space<W: Word>(im: &[W], k: usize, x: usize) -> bool
    requires sized { Sized W.BITS k (W.words im.now) }
    requires x_bound { x ≤ 32 }
    ensures { result ≡ lacks_space (image_of W.BITS k (W.words im.now)) x }
{
    if x == 0 {
        return true;
    }
    30 <= count(im, k, x - 1)
}

// The best packet of the pool, of the lowest number among equals: its number + 1, as the words of a tracer name it.
// 0 if none is better than one with `bound` entries.
#[inline(never)]
fn choose<W: Word, F: Fn(usize, usize) -> bool>(
    im: &[W],
    k: usize,
    bound: usize,
    better: F,
) -> usize
    requires sized { Sized W.BITS k (W.words im.now) }
    requires held_ok { HeldOk (image_of W.BITS k (W.words im.now)).tracers }
    requires callable { F.IsAlwaysCallable better }
    ensures { (less : ℕ → ℕ → Bool) → Decides (F.post better) less → result ≡ (walk_to less bound (image_of W.BITS k (W.words im.now)) 32).packet }
{
    let held = held_packets(im, k);
    let mut packet = 0;
    let mut entries = bound;
    for p in 0..32 {
        let n = count(im, k, p);
        if in_pool(held, p) & better(n, entries) {
            packet = p + 1;
            entries = n;
        }
    }
    packet
}

// "the pool packet (held by no tracer) with fewest entries, below 30, lowest number": its number + 1.
pub fn emptiest<W: Word>(im: &[W], k: usize) -> usize
    requires sized { Sized W.BITS k (W.words im.now) }
    requires held_ok { HeldOk (image_of W.BITS k (W.words im.now)).tracers }
    ensures { result ≡ emptiest (image_of W.BITS k (W.words im.now)) }
{
    choose(im, k, 30, |n, entries| n < entries)
}

// "the fullest pool packet, lowest number", one with entries: its number + 1.
pub fn fullest<W: Word>(im: &[W], k: usize) -> usize
    requires sized { Sized W.BITS k (W.words im.now) }
    requires held_ok { HeldOk (image_of W.BITS k (W.words im.now)).tracers }
    ensures { result ≡ fullest (image_of W.BITS k (W.words im.now)) }
{
    choose(im, k, 0, |n, entries| entries < n)
}
