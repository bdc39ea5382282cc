// Granules told by bits: those of the image that a word may name, and sets in tables that are lent.
#![tactic(auto)]

ghost use Rattle.std.specs.Prelude.{◌≡◌, not, ◌&&◌, ◌||◌, ◌+◌, ◌*◌, ◌/◌, ◌≤◌, ◌<◌, min, eqb, leb, ltb, length, replicate};
ghost use Rattle.model.specs.Base.{bit, set_bit};
ghost use Rattle.model.specs.Image.{image_of, is_start, marked};
ghost use Rattle.model.specs.Undamaged.{nil_or_start};
ghost use Rattle.image_laws.specs.Sized.{Sized};
ghost use Rattle.soundness_laws.specs.Sets.{CardBits, Named, table_words};

use image::section::Section;
use image::word::Word;

// How many granules a set of entries tells apart, and its words: one that grew with the store would be large in a large one.
pub const APART: usize = 32768;

pub const SEEN: usize = APART / 64;

// A table has a bit for every number of 16 bits: with words of 16 bits, a link is tested by it alone.
const NUMBERS: usize = 65536;

// A word of it has the bits of a card, so that as many cards have a word there.
pub const TABLE: usize = NUMBERS / 64;

pub fn least(a: usize, b: usize) -> usize
    ensures { result ≡ min a b }
{
    if a < b { a } else { b }
}

// ---- sets

pub fn in_set(set: &[u64], g: usize) -> bool
    requires { g / 64 < length set.now }
    ensures { result ≡ bit 64 set.now g }
{
    (set[g / 64] >> (g % 64)) & 1 == 1
}

// whether g was not yet seen; it is now
pub fn first_time(seen: &mut [u64], g: usize) -> bool
    requires { g / 64 < length seen.old }
    ensures { (result ≡ not (bit 64 seen.old g)) × (seen.new ≡ set_bit 64 seen.old g) }
{
    let is_new = !in_set(seen, g);
    seen[g / 64] |= 1 << (g % 64);
    is_new
}

// ---- bit words of an image, or of a plane that has one for each of its own

pub fn in_plane<W: Word>(plane: &[W], g: usize) -> bool
    requires { g / W.BITS < length plane.now }
    ensures { result ≡ bit W.BITS (W.words plane.now) g }
{
    bits_and_cards::bits::has_bit(plane[g / W::BITS], g % W::BITS)
}

// Two functions: one with the section as an argument would ask in a clause that it is one of the two.
pub fn start_words<W: Word>(im: &[W], k: usize) -> &[W]
    requires { Sized W.BITS k (W.words im.now) }
    ensures words { W.words result.now ≡ (image_of W.BITS k (W.words im.now)).starts }
    ensures cards { length result.now ≡ W.CARD_BITS * k }
{
    &im[Section::Starts.place::<W>(k)..Section::Marks.place::<W>(k)]
}

pub fn mark_words<W: Word>(im: &[W], k: usize) -> &[W]
    requires { Sized W.BITS k (W.words im.now) }
    ensures words { W.words result.now ≡ (image_of W.BITS k (W.words im.now)).marks }
    ensures cards { length result.now ≡ W.CARD_BITS * k }
{
    &im[Section::Marks.place::<W>(k)..Section::Cards.place::<W>(k)]
}

// The bits of card c as one number.
pub fn card_bits<W: Word>(bits: &[W], c: usize) -> u64
    requires { W.CARD_BITS * (c + 1) ≤ length bits.now }
    ensures { CardBits W.BITS (W.words bits.now) c result }
{
    let mut x: u64 = 0;
    for i in 0..W::CARD_BITS {
        x += (bits[W::CARD_BITS * c + i].value() as u64) << (W::BITS * i);
    }
    x
}

// ---- what a word names: asked of a table, which has nil's bit besides those of the image; in a store with more granules of the image's own bits

fn note<W: Word>(bits: &[W], k: usize, table: &mut [u64])
    requires bits_length { length bits.now ≡ W.CARD_BITS * k }
    requires table_value { table.old ≡ replicate table_words 0 }
    ensures { Named W.BITS (W.words bits.now) table.new }
{
    for c in 0..least(k, TABLE) {
        table[c] = card_bits(bits, c);
    }
    table[0] |= 1;
}

pub fn note_starts<W: Word>(im: &[W], k: usize, table: &mut [u64])
    requires sized { Sized W.BITS k (W.words im.now) }
    requires table_value { table.old ≡ replicate table_words 0 }
    ensures { Named W.BITS (image_of W.BITS k (W.words im.now)).starts table.new }
{
    note(start_words(im, k), k, table);
}

pub fn note_marks<W: Word>(im: &[W], k: usize, table: &mut [u64])
    requires sized { Sized W.BITS k (W.words im.now) }
    requires table_value { table.old ≡ replicate table_words 0 }
    ensures { Named W.BITS (image_of W.BITS k (W.words im.now)).marks table.new }
{
    note(mark_words(im, k), k, table);
}

// Whether the table is asked. By the store, not by the word: a branch between nil and granules beyond the table cannot be foretold.
fn is_tabled<W: Word>(k: usize) -> bool
    ensures { result ≡ (leb W.MOST_CARDS 1024 || leb k 1024) }
{
    (W::MOST_CARDS <= TABLE) | (k <= TABLE)
}

// The bit is read of a number that the table has, or of a granule that the store has, so that no branch hangs on the word.
#[tactic(auto, using(soundness_laws::proofs::Sets::table_bit))]
fn in_table(table: &[u64], a: usize) -> bool
    requires { length table.now ≡ table_words }
    ensures { result ≡ (ltb a 65536 && bit 64 table.now (min a 65535)) }
{
    let b = least(a, NUMBERS - 1);
    (a < NUMBERS) & in_set(table, b)
}

#[tactic(auto, using(soundness_laws::proofs::Sets::start_at))]
fn start_at<W: Word>(im: &[W], k: usize, a: usize) -> bool
    requires { Sized W.BITS k (W.words im.now) }
    ensures { result ≡ is_start (image_of W.BITS k (W.words im.now)) a }
{
    let b = least(a, 64 * k - 1);
    (a < 64 * k) & bits_and_cards::bits::is_start(im, k, b)
}

#[tactic(auto, using(soundness_laws::proofs::Sets::mark_at))]
pub fn marked_at<W: Word>(im: &[W], k: usize, a: usize) -> bool
    requires { Sized W.BITS k (W.words im.now) }
    ensures { result ≡ marked (image_of W.BITS k (W.words im.now)) a }
{
    let b = least(a, 64 * k - 1);
    (a < 64 * k) & bits_and_cards::bits::is_marked(im, k, b)
}

#[tactic(auto, using(soundness_laws::proofs::Sets::target_bit, soundness_laws::proofs::Sets::target_asked))]
pub fn is_target<W: Word>(im: &[W], k: usize, table: &[u64], a: usize) -> bool
    requires sized { Sized W.BITS k (W.words im.now) }
    requires named { Named W.BITS (image_of W.BITS k (W.words im.now)).starts table.now }
    ensures { result ≡ nil_or_start (image_of W.BITS k (W.words im.now)) a }
{
    if is_tabled::<W>(k) {
        if a / 64 < TABLE {
            return in_set(table, a);
        }
    }
    (a == 0) | start_at(im, k, a)
}

pub fn nil_or_marked<W: Word>(im: &[W], k: usize, table: &[u64], a: usize) -> bool
    requires sized { Sized W.BITS k (W.words im.now) }
    requires named { Named W.BITS (image_of W.BITS k (W.words im.now)).marks table.now }
    ensures { result ≡ (eqb a 0 || marked (image_of W.BITS k (W.words im.now)) a) }
{
    if is_tabled::<W>(k) {
        return in_table(table, a);
    }
    (a == 0) | marked_at(im, k, a)
}
