// The lines of the map, one behind the other.
ghost use Rattle.std.specs.Prelude.{◌≡◌, [], ◌∷◌, ◌+◌, ◌*◌, ◌≤◌, ◌<◌, length};
ghost use Rattle.model.specs.Base.{nth};
ghost use Rattle.model.specs.Image.{image_of, state};
ghost use Rattle.model.specs.Map.{space_char, line_end, decimal, heading, card_line, map_lines};
ghost use Rattle.image_laws.specs.Sized.{Sized};
ghost use Rattle.service_map_laws.specs.Ends.{end_before};
ghost use Rattle.service_map_laws.specs.Pasted.{pasted};

use image::word::Word;

const SPACE: u8 = 32;

const LINE_END: u8 = 10;

// The digit of n that is worth p.
fn digit(n: usize, p: usize) -> u8
    requires { 0 < p }
    ensures { result ≡ decimal n p }
{
    (48 + n / p % 10) as u8
}

// Byte j of the heading of card c in state s.
#[tactic(auto, using(service_map_laws::proofs::Lines::byte_is, service_map_laws::proofs::Lines::byte_space), unfolding(model::specs::Base::nth, model::specs::Map::heading))]
fn heading_byte<W: Word>(c: usize, s: W, j: usize) -> u8
    requires { j < 7 }
    ensures { result ≡ nth (heading c (W.value s)) j }
{
    match j {
        0 => digit(c, 1000),
        1 => digit(c, 100),
        2 => digit(c, 10),
        3 => digit(c, 1),
        5 => digit(s.value(), 1),
        _ => SPACE,
    }
}

fn write_heading<W: Word>(im: &[W], k: usize, out: &mut [u8], c: usize)
    requires sized { Sized W.BITS k (W.words im.now) }
    requires c_lt_k { (c < k) × (length out.old ≡ 73 * k) }
    ensures { out.new ≡ pasted out.old (73 * c) (heading c (state (image_of W.BITS k (W.words im.now)) c)) }
{
    let s = image::sections::card(im, k, c);
    for j in 0..7 {
        out[73 * c + j] = heading_byte(c, s, j);
    }
}

fn write_ending(out: &mut [u8], c: usize)
    requires { 73 * c + 73 ≤ length out.old }
    ensures { out.new ≡ pasted out.old (73 * c + 71) (space_char ∷ line_end ∷ []) }
{
    out[73 * c + 71] = SPACE;
    out[73 * c + 72] = LINE_END;
}

// The line of card c; `end` is as far as the objects reach that start on cards before it.
fn write_line<W: Word>(im: &[W], k: usize, out: &mut [u8], c: usize, end: usize) -> usize
    requires sized { Sized W.BITS k (W.words im.now) }
    requires c_lt_k { (c < k) × (length out.old ≡ 73 * k) }
    requires end_value { end ≡ end_before (image_of W.BITS k (W.words im.now)) (64 * c) }
    ensures value { result ≡ end_before (image_of W.BITS k (W.words im.now)) (64 * c + 64) }
    ensures out_after { out.new ≡ pasted out.old (73 * c) (card_line (image_of W.BITS k (W.words im.now)) c) }
{
    write_heading(im, k, out, c);
    let last = map_signs::signs::write_signs(im, k, out, c, end);
    write_ending(out, c);
    last
}

pub fn draw<W: Word>(im: &[W], k: usize, out: &mut [u8])
    requires sized { Sized W.BITS k (W.words im.now) }
    requires out_len { length out.old ≡ 73 * k }
    ensures { out.new ≡ map_lines (image_of W.BITS k (W.words im.now)) }
{
    let mut end = 0;
    for c in 0..k {
        end = write_line(im, k, out, c, end);
    }
}
