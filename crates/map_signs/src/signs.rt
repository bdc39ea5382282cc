// The signs of a card's granules, a bit word at a time. Which granule is a start cannot be foretold, so no branch hangs on it.
ghost use Rattle.std.specs.Prelude.{◌≡◌, cond, ◌+◌, ◌*◌, ◌/◌, max, ◌≤◌, ◌<◌, length};
ghost use Rattle.model.specs.Base.{table};
ghost use Rattle.model.specs.Image.{image_of, size};
ghost use Rattle.model.specs.Map.{sign_of, sign};
ghost use Rattle.image_laws.specs.Sized.{Sized};
ghost use Rattle.service_map_laws.specs.Ends.{end_before};
ghost use Rattle.service_map_laws.specs.Pasted.{pasted};

use image::word::Word;

// By number: 4 for a start, 2 for a mark, 1 for what is inside an object.
const SIGNS: [u8; 8] = [46, 45, 46, 45, 111, 111, 35, 35];

#[tactic(auto, using(service_map_laws::proofs::Signs::sign_below, service_map_laws::proofs::Signs::sign_at))]
fn sign(start: bool, mark: bool, inside: bool) -> u8
    ensures { result ≡ sign_of start mark inside }
{
    SIGNS[4 * (start as usize) + 2 * (mark as usize) + inside as usize]
}

// How far the objects reach that start at granule g or below; `end` is as far as those below reach.
fn furthest<W: Word>(im: &[W], k: usize, g: usize, start: bool, end: usize) -> usize
    requires sized { Sized W.BITS k (W.words im.now) }
    requires g_bound { g < 64 * k }
    ensures { result ≡ max end (cond start (g + size (image_of W.BITS k (W.words im.now)) g) 0) }
{
    let own = (start as usize) * (g + image::sections::word(im, k, g, 0).value());
    if end < own {
        return own;
    }
    end
}

// The signs of the granules of bit word x, from byte `at` on.
fn write_word<W: Word>(im: &[W], k: usize, out: &mut [u8], at: usize, x: usize, end: usize) -> usize
    requires sized { Sized W.BITS k (W.words im.now) }
    requires x_bound { (x < 64 * k / W.BITS) × (at + W.BITS ≤ length out.old) }
    requires end_value { end ≡ end_before (image_of W.BITS k (W.words im.now)) (W.BITS * x) }
    ensures value { result ≡ end_before (image_of W.BITS k (W.words im.now)) (W.BITS * x + W.BITS) }
    ensures out_after { out.new ≡ pasted out.old at (table W.BITS (λ j. sign (image_of W.BITS k (W.words im.now)) (W.BITS * x + j))) }
{
    let starts = image::sections::start_word(im, k, x);
    let marks = image::sections::mark_word(im, k, x);
    let mut last = end;
    for j in 0..W::BITS {
        let g = W::BITS * x + j;
        let start = bits_and_cards::bits::has_bit(starts, j);
        let mark = bits_and_cards::bits::has_bit(marks, j);
        last = furthest(im, k, g, start, last);
        out[at + j] = sign(start, mark, g < last);
    }
    last
}

// The signs of card c.
pub fn write_signs<W: Word>(im: &[W], k: usize, out: &mut [u8], c: usize, end: usize) -> usize
    requires sized { Sized W.BITS k (W.words im.now) }
    requires c_lt_k { (c < k) × (length out.old ≡ 73 * k) }
    requires end_value { end ≡ end_before (image_of W.BITS k (W.words im.now)) (64 * c) }
    ensures value { result ≡ end_before (image_of W.BITS k (W.words im.now)) (64 * c + 64) }
    ensures out_after { out.new ≡ pasted out.old (73 * c + 7) (table 64 (λ i. sign (image_of W.BITS k (W.words im.now)) (64 * c + i))) }
{
    let mut last = end;
    for i in 0..W::CARD_BITS {
        last = write_word(
            im,
            k,
            out,
            73 * c + 7 + W::BITS * i,
            W::CARD_BITS * c + i,
            last,
        );
    }
    last
}
