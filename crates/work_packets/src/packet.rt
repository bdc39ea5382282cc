// Work packets by value: "A packet is a count and 30 entries, with one zero word between".
ghost use Rattle.std.specs.Prelude.{◌≡◌, ◌-◌, ◌≤◌, ◌<◌, length, take};
ghost use Rattle.model.specs.Base.{nth};
ghost use Rattle.model.specs.Image.{image_of, count};
ghost use Rattle.model.specs.Collect.{append};
ghost use Rattle.image_laws.specs.Sized.{Sized};
ghost use Rattle.tracers_laws.specs.Packet.{Tidy, LastOff, packet_at, with_entry, without_last, words_of, with_packet};
ghost use Rattle.work_packets.specs.Plain.{packet_of};

use image::section::Section;
use image::word::Word;

// A count and places for thirty entries, as the image has them: there is no heap.
#[derive(Clone, Copy, Debug, PartialEq, Eq)]
pub struct Packet<W> {
    pub count: usize,
    pub entries: [W; 30],
}

impl<W: Word> Packet<W> {
    pub fn push(mut self, v: W) -> Self
        requires { self.count < 30 }
        ensures { packet_of W.words result ≡ with_entry (packet_of W.words self) (W.value v) }
    {
        let n = self.count;
        self.entries[n] = v;
        self.count = n + 1;
        self
    }

    pub fn pop(mut self) -> Self
        requires { (0 < self.count) × (self.count ≤ 30) }
        ensures { packet_of W.words result ≡ without_last (packet_of W.words self) }
    {
        let n = self.count - 1;
        self.entries[n] = W::of(0);
        self.count = n;
        self
    }

    pub fn last(self) -> W
        requires { (0 < self.count) × (self.count ≤ 30) }
        ensures { W.value result ≡ nth (packet_of W.words self).entries (self.count - 1) }
    {
        let n = self.count - 1;
        self.entries[n]
    }
}

fn thirty<W: Word>(s: &[W]) -> [W; 30]
    requires { 30 ≤ length s.now }
    ensures { W.words result ≡ take 30 (W.words s.now) }
{
    let mut e = [W::of(0); 30];
    for j in 0..30 {
        e[j] = s[j];
    }
    e
}

pub fn read_packet<W: Word>(im: &[W], k: usize, p: usize) -> Packet<W>
    requires sized { Sized W.BITS k (W.words im.now) }
    requires p_bound { p < 32 }
    ensures { packet_of W.words result ≡ packet_at (image_of W.BITS k (W.words im.now)) p }
{
    let n = image::sections::packet_word(im, k, 32 * p).value();
    let from = Section::Packets.place::<W>(k) + 32 * p + 2;
    let to = from + 30;
    let e = thirty(&im[from..to]);
    Packet {
        count: n,
        entries: e,
    }
}

fn put_words<W: Word>(s: &mut [W], q: Packet<W>)
    requires { (length s.old ≡ 32) × (q.count ≤ 30) }
    ensures { W.words s.new ≡ words_of (packet_of W.words q) }
{
    let n = q.count;
    let e = q.entries;
    s[0] = W::of(n);
    s[1] = W::of(0);
    for j in 0..30 {
        s[j + 2] = e[j];
    }
}

pub fn write_packet<W: Word>(im: &mut [W], k: usize, p: usize, q: Packet<W>)
    requires sized { Sized W.BITS k (W.words im.old) }
    requires p_bound { (p < 32) × (q.count ≤ 30) }
    ensures { image_of W.BITS k (W.words im.new) ≡ with_packet (image_of W.BITS k (W.words im.old)) p (packet_of W.words q) }
{
    let a = Section::Packets.place::<W>(k) + 32 * p;
    let e = a + 32;
    put_words(&mut im[a..e], q);
}

// The granule g is appended to packet p.
pub fn append_entry<W: Word>(im: &mut [W], k: usize, p: usize, g: W)
    requires sized { Sized W.BITS k (W.words im.old) }
    requires p_bound { p < 32 }
    requires tidy { Tidy (image_of W.BITS k (W.words im.old)) p }
    requires p_bound_2 { count (image_of W.BITS k (W.words im.old)) p < 30 }
    ensures { image_of W.BITS k (W.words im.new) ≡ append (image_of W.BITS k (W.words im.old)) p (W.value g) }
{
    let q = read_packet(im, k, p);
    let r = q.push(g);
    write_packet(im, k, p, r);
}

// The last entry of packet p comes off.
pub fn pop_entry<W: Word>(im: &mut [W], k: usize, p: usize) -> W
    requires sized { Sized W.BITS k (W.words im.old) }
    requires p_bound { p < 32 }
    requires tidy { Tidy (image_of W.BITS k (W.words im.old)) p }
    requires p_nonzero { 0 < count (image_of W.BITS k (W.words im.old)) p }
    ensures { LastOff (image_of W.BITS k (W.words im.old)) p (W.value result) (image_of W.BITS k (W.words im.new)) }
{
    let q = read_packet(im, k, p);
    let g = q.last();
    let r = q.pop();
    write_packet(im, k, p, r);
    g
}
