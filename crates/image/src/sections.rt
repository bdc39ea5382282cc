// The words of an image, section by section: only leaves index the lent slice.
ghost use Rattle.std.specs.Prelude.{◌≡◌, ◌+◌, ◌*◌, ◌/◌, ◌<◌};
ghost use Rattle.model.specs.Base.{nth, put};
ghost use Rattle.model.specs.Image.{image_of, word, links, owed, scanned, running, first_run, state, card_count, reg, with_heap, with_starts, with_marks, with_counts, with_regs, with_tracers, with_players, with_general, set_state, set_reg, set_tracer, set_owed, set_scanned, set_first_run, set_word};
ghost use Rattle.image_laws.specs.Sized.{Sized};
ghost use Rattle.image.specs.Section.{section_length, part, with_part};

use crate::section::Section;
use crate::word::Word;

// ---- read: below the first, a line for each of the model's names; with the section as an argument a call would be longer and its bound less plain

// Word i of section s.
pub fn section_word<W: Word>(im: &[W], k: usize, s: Section, i: usize) -> W
    requires sized { Sized W.BITS k (W.words im.now) }
    requires i_bound { i < section_length W.BITS k s }
    ensures { W.value result ≡ nth (part s (image_of W.BITS k (W.words im.now))) i }
{
    im[s.place::<W>(k) + i]
}

pub fn heap_word<W: Word>(im: &[W], k: usize, i: usize) -> W
    requires sized { Sized W.BITS k (W.words im.now) }
    requires i_bound { i < 256 * k }
    ensures { W.value result ≡ nth (image_of W.BITS k (W.words im.now)).heap i }
{
    section_word(im, k, Section::Heap, i)
}

// Word i from granule g on.
#[tactic(auto, unfolding(model::specs::Image::word))]
pub fn word<W: Word>(im: &[W], k: usize, g: usize, i: usize) -> W
    requires sized { Sized W.BITS k (W.words im.now) }
    requires i_bound { 4 * g + i < 256 * k }
    ensures { W.value result ≡ word (image_of W.BITS k (W.words im.now)) g i }
{
    heap_word(im, k, 4 * g + i)
}

// The number of links of the object at g.
#[tactic(auto, unfolding(model::specs::Image::links))]
pub fn links<W: Word>(im: &[W], k: usize, g: usize) -> usize
    requires sized { Sized W.BITS k (W.words im.now) }
    requires g_bound { g < 64 * k }
    ensures { result ≡ links (image_of W.BITS k (W.words im.now)) g }
{
    word(im, k, g, 1).value()
}

pub fn start_word<W: Word>(im: &[W], k: usize, w: usize) -> W
    requires sized { Sized W.BITS k (W.words im.now) }
    requires w_bound { w < 64 * k / W.BITS }
    ensures { W.value result ≡ nth (image_of W.BITS k (W.words im.now)).starts w }
{
    section_word(im, k, Section::Starts, w)
}

pub fn mark_word<W: Word>(im: &[W], k: usize, w: usize) -> W
    requires sized { Sized W.BITS k (W.words im.now) }
    requires w_bound { w < 64 * k / W.BITS }
    ensures { W.value result ≡ nth (image_of W.BITS k (W.words im.now)).marks w }
{
    section_word(im, k, Section::Marks, w)
}

#[tactic(auto, unfolding(model::specs::Image::state))]
pub fn card<W: Word>(im: &[W], k: usize, c: usize) -> W
    requires sized { Sized W.BITS k (W.words im.now) }
    requires c_lt_k { c < k }
    ensures { W.value result ≡ state (image_of W.BITS k (W.words im.now)) c }
{
    section_word(im, k, Section::Cards, c)
}

// The number of marked objects on card c, as the image has it.
#[tactic(auto, unfolding(model::specs::Image::card_count))]
pub fn count<W: Word>(im: &[W], k: usize, c: usize) -> W
    requires sized { Sized W.BITS k (W.words im.now) }
    requires c_lt_k { c < k }
    ensures { W.value result ≡ card_count (image_of W.BITS k (W.words im.now)) c }
{
    section_word(im, k, Section::Counts, c)
}

pub fn reg_word<W: Word>(im: &[W], k: usize, i: usize) -> W
    requires sized { Sized W.BITS k (W.words im.now) }
    requires i_bound { i < 256 }
    ensures { W.value result ≡ nth (image_of W.BITS k (W.words im.now)).regs i }
{
    section_word(im, k, Section::Regs, i)
}

#[tactic(auto, unfolding(model::specs::Image::reg))]
pub fn reg<W: Word>(im: &[W], k: usize, p: usize, a: usize) -> W
    requires sized { Sized W.BITS k (W.words im.now) }
    requires p_bound { (p < 16) × (a < 16) }
    ensures { W.value result ≡ reg (image_of W.BITS k (W.words im.now)) p a }
{
    reg_word(im, k, 16 * p + a)
}

pub fn packet_word<W: Word>(im: &[W], k: usize, i: usize) -> W
    requires sized { Sized W.BITS k (W.words im.now) }
    requires i_bound { i < 1024 }
    ensures { W.value result ≡ nth (image_of W.BITS k (W.words im.now)).packets i }
{
    section_word(im, k, Section::Packets, i)
}

pub fn tracer_word<W: Word>(im: &[W], k: usize, i: usize) -> W
    requires sized { Sized W.BITS k (W.words im.now) }
    requires i_bound { i < 64 }
    ensures { W.value result ≡ nth (image_of W.BITS k (W.words im.now)).tracers i }
{
    section_word(im, k, Section::Tracers, i)
}

pub fn player_word<W: Word>(im: &[W], k: usize, i: usize) -> W
    requires sized { Sized W.BITS k (W.words im.now) }
    requires i_bound { i < 32 }
    ensures { W.value result ≡ nth (image_of W.BITS k (W.words im.now)).players i }
{
    section_word(im, k, Section::Players, i)
}

pub fn general_word<W: Word>(im: &[W], k: usize, i: usize) -> W
    requires sized { Sized W.BITS k (W.words im.now) }
    requires i_bound { i < 8 }
    ensures { W.value result ≡ nth (image_of W.BITS k (W.words im.now)).general i }
{
    section_word(im, k, Section::General, i)
}

#[tactic(auto, unfolding(model::specs::Image::owed))]
pub fn owed<W: Word>(im: &[W], k: usize, p: usize) -> W
    requires sized { Sized W.BITS k (W.words im.now) }
    requires p_bound { p < 16 }
    ensures { W.value result ≡ owed (image_of W.BITS k (W.words im.now)) p }
{
    player_word(im, k, 2 * p)
}

#[tactic(auto, unfolding(model::specs::Image::scanned))]
pub fn scanned<W: Word>(im: &[W], k: usize, p: usize) -> W
    requires sized { Sized W.BITS k (W.words im.now) }
    requires p_bound { p < 16 }
    ensures { W.value result ≡ scanned (image_of W.BITS k (W.words im.now)) p }
{
    player_word(im, k, 2 * p + 1)
}

#[tactic(auto, unfolding(model::specs::Image::running))]
pub fn running<W: Word>(im: &[W], k: usize) -> W
    requires { Sized W.BITS k (W.words im.now) }
    ensures { W.value result ≡ running (image_of W.BITS k (W.words im.now)) }
{
    general_word(im, k, 0)
}

#[tactic(auto, unfolding(model::specs::Image::first_run))]
pub fn first_run<W: Word>(im: &[W], k: usize) -> W
    requires { Sized W.BITS k (W.words im.now) }
    ensures { W.value result ≡ first_run (image_of W.BITS k (W.words im.now)) }
{
    general_word(im, k, 1)
}

// ---- written

// Word i of section s.
pub fn set_section_word<W: Word>(im: &mut [W], k: usize, s: Section, i: usize, v: W)
    requires sized { Sized W.BITS k (W.words im.old) }
    requires i_bound { i < section_length W.BITS k s }
    ensures { image_of W.BITS k (W.words im.new) ≡ with_part s (image_of W.BITS k (W.words im.old)) (put (part s (image_of W.BITS k (W.words im.old))) i (W.value v)) }
{
    im[s.place::<W>(k) + i] = v;
}

pub fn set_heap_word<W: Word>(im: &mut [W], k: usize, i: usize, v: W)
    requires sized { Sized W.BITS k (W.words im.old) }
    requires i_bound { i < 256 * k }
    ensures { image_of W.BITS k (W.words im.new) ≡ with_heap (image_of W.BITS k (W.words im.old)) (put (image_of W.BITS k (W.words im.old)).heap i (W.value v)) }
{
    set_section_word(im, k, Section::Heap, i, v);
}

#[tactic(auto, unfolding(model::specs::Image::set_word))]
pub fn set_word<W: Word>(im: &mut [W], k: usize, g: usize, i: usize, v: W)
    requires sized { Sized W.BITS k (W.words im.old) }
    requires i_bound { 4 * g + i < 256 * k }
    ensures { image_of W.BITS k (W.words im.new) ≡ set_word (image_of W.BITS k (W.words im.old)) g i (W.value v) }
{
    set_heap_word(im, k, 4 * g + i, v);
}

pub fn set_start_word<W: Word>(im: &mut [W], k: usize, w: usize, v: W)
    requires sized { Sized W.BITS k (W.words im.old) }
    requires w_bound { w < 64 * k / W.BITS }
    ensures { image_of W.BITS k (W.words im.new) ≡ with_starts (image_of W.BITS k (W.words im.old)) (put (image_of W.BITS k (W.words im.old)).starts w (W.value v)) }
{
    set_section_word(im, k, Section::Starts, w, v);
}

pub fn set_mark_word<W: Word>(im: &mut [W], k: usize, w: usize, v: W)
    requires sized { Sized W.BITS k (W.words im.old) }
    requires w_bound { w < 64 * k / W.BITS }
    ensures { image_of W.BITS k (W.words im.new) ≡ with_marks (image_of W.BITS k (W.words im.old)) (put (image_of W.BITS k (W.words im.old)).marks w (W.value v)) }
{
    set_section_word(im, k, Section::Marks, w, v);
}

#[tactic(auto, unfolding(model::specs::Image::set_state))]
pub fn set_card<W: Word>(im: &mut [W], k: usize, c: usize, v: W)
    requires sized { Sized W.BITS k (W.words im.old) }
    requires c_lt_k { c < k }
    ensures { image_of W.BITS k (W.words im.new) ≡ set_state (image_of W.BITS k (W.words im.old)) c (W.value v) }
{
    set_section_word(im, k, Section::Cards, c, v);
}

pub fn set_count<W: Word>(im: &mut [W], k: usize, c: usize, v: W)
    requires sized { Sized W.BITS k (W.words im.old) }
    requires c_lt_k { c < k }
    ensures { image_of W.BITS k (W.words im.new) ≡ with_counts (image_of W.BITS k (W.words im.old)) (put (image_of W.BITS k (W.words im.old)).counts c (W.value v)) }
{
    set_section_word(im, k, Section::Counts, c, v);
}

pub fn set_reg_word<W: Word>(im: &mut [W], k: usize, i: usize, v: W)
    requires sized { Sized W.BITS k (W.words im.old) }
    requires i_bound { i < 256 }
    ensures { image_of W.BITS k (W.words im.new) ≡ with_regs (image_of W.BITS k (W.words im.old)) (put (image_of W.BITS k (W.words im.old)).regs i (W.value v)) }
{
    set_section_word(im, k, Section::Regs, i, v);
}

pub fn set_tracer_word<W: Word>(im: &mut [W], k: usize, i: usize, v: W)
    requires sized { Sized W.BITS k (W.words im.old) }
    requires i_bound { i < 64 }
    ensures { image_of W.BITS k (W.words im.new) ≡ with_tracers (image_of W.BITS k (W.words im.old)) (put (image_of W.BITS k (W.words im.old)).tracers i (W.value v)) }
{
    set_section_word(im, k, Section::Tracers, i, v);
}

pub fn set_player_word<W: Word>(im: &mut [W], k: usize, i: usize, v: W)
    requires sized { Sized W.BITS k (W.words im.old) }
    requires i_bound { i < 32 }
    ensures { image_of W.BITS k (W.words im.new) ≡ with_players (image_of W.BITS k (W.words im.old)) (put (image_of W.BITS k (W.words im.old)).players i (W.value v)) }
{
    set_section_word(im, k, Section::Players, i, v);
}

pub fn set_general_word<W: Word>(im: &mut [W], k: usize, i: usize, v: W)
    requires sized { Sized W.BITS k (W.words im.old) }
    requires i_bound { i < 8 }
    ensures { image_of W.BITS k (W.words im.new) ≡ with_general (image_of W.BITS k (W.words im.old)) (put (image_of W.BITS k (W.words im.old)).general i (W.value v)) }
{
    set_section_word(im, k, Section::General, i, v);
}

#[tactic(auto, unfolding(model::specs::Image::set_reg))]
pub fn set_reg<W: Word>(im: &mut [W], k: usize, p: usize, a: usize, v: W)
    requires sized { Sized W.BITS k (W.words im.old) }
    requires p_bound { (p < 16) × (a < 16) }
    ensures { image_of W.BITS k (W.words im.new) ≡ set_reg (image_of W.BITS k (W.words im.old)) p a (W.value v) }
{
    set_reg_word(im, k, 16 * p + a, v);
}

#[tactic(auto, unfolding(model::specs::Image::set_tracer))]
pub fn set_tracer<W: Word>(im: &mut [W], k: usize, t: usize, i: usize, v: W)
    requires sized { Sized W.BITS k (W.words im.old) }
    requires t_bound { (t < 8) × (i < 8) }
    ensures { image_of W.BITS k (W.words im.new) ≡ set_tracer (image_of W.BITS k (W.words im.old)) t i (W.value v) }
{
    set_tracer_word(im, k, 8 * t + i, v);
}

#[tactic(auto, unfolding(model::specs::Image::set_owed))]
pub fn set_owed<W: Word>(im: &mut [W], k: usize, p: usize, v: W)
    requires sized { Sized W.BITS k (W.words im.old) }
    requires p_bound { p < 16 }
    ensures { image_of W.BITS k (W.words im.new) ≡ set_owed (image_of W.BITS k (W.words im.old)) p (W.value v) }
{
    set_player_word(im, k, 2 * p, v);
}

#[tactic(auto, unfolding(model::specs::Image::set_scanned))]
pub fn set_scanned<W: Word>(im: &mut [W], k: usize, p: usize)
    requires sized { Sized W.BITS k (W.words im.old) }
    requires p_bound { p < 16 }
    ensures { image_of W.BITS k (W.words im.new) ≡ set_scanned (image_of W.BITS k (W.words im.old)) p }
{
    set_player_word(im, k, 2 * p + 1, W::of(1));
}

#[tactic(auto, unfolding(model::specs::Image::set_first_run))]
pub fn set_first_run<W: Word>(im: &mut [W], k: usize, g: W)
    requires { Sized W.BITS k (W.words im.old) }
    ensures { image_of W.BITS k (W.words im.new) ≡ set_first_run (image_of W.BITS k (W.words im.old)) (W.value g) }
{
    set_general_word(im, k, 1, g);
}
