// Parts of the slice read as a whole: words that are 0.
ghost use Rattle.std.specs.Prelude.{◌≡◌, ◌*◌, ◌-◌, ◌≤◌, take, drop};
ghost use Rattle.model.specs.Base.{zeroes};
ghost use Rattle.model.specs.Image.{image_of};
ghost use Rattle.image_laws.specs.Sized.{Sized};
ghost use Rattle.image.specs.Section.{section_length, part};

use image::section::Section;
use image::word::Word;

// Word by word: for a few words.
fn few_zeros<W: Word>(s: &[W]) -> bool
    ensures { result ≡ zeroes (W.words s.now) }
{
    let mut ok = true;
    for i in 0..s.len() {
        ok = ok & (s[i].value() == 0);
    }
    ok
}

// A word of each half at a time: a loop that long runs as fast wherever it lies in the program.
fn many_zeros<W: Word>(s: &[W]) -> bool
    ensures { result ≡ zeroes (W.words s.now) }
{
    let h = s.len() / 2;
    let n = s.len() - h;
    let mut ok = true;
    for i in 0..n {
        ok = ok & (s[i].value() | s[h + i].value() == 0);
    }
    ok
}

pub fn zeros<W: Word>(s: &[W]) -> bool
    ensures { result ≡ zeroes (W.words s.now) }
{
    if s.len() < 256 {
        return few_zeros(s);
    }
    many_zeros(s)
}

pub fn zero_section<W: Word>(im: &[W], k: usize, s: Section) -> bool
    requires { Sized W.BITS k (W.words im.now) }
    ensures { result ≡ zeroes (part s (image_of W.BITS k (W.words im.now))) }
{
    let a = s.place::<W>(k);
    let e = a + s.length::<W>(k);
    zeros(&im[a..e])
}

// words a to e - 1 of section s
pub fn zero_part<W: Word>(im: &[W], k: usize, s: Section, a: usize, e: usize) -> bool
    requires sized { Sized W.BITS k (W.words im.now) }
    requires a_le_e { (a ≤ e) × (e ≤ section_length W.BITS k s) }
    ensures { result ≡ zeroes (take (e - a) (drop a (part s (image_of W.BITS k (W.words im.now))))) }
{
    let b = s.place::<W>(k);
    zeros(&im[b + a..b + e])
}
