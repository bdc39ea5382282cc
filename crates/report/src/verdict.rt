// Numbers 13 and 14, each with both planes of the scratch, and the verdict.
ghost use Rattle.std.specs.Prelude.{◌≡◌, ◌*◌, ◌/◌, length};
ghost use Rattle.model.specs.Base.{zeros};
ghost use Rattle.model.specs.Image.{image_of};
ghost use Rattle.model.specs.Report.{held_freed, lost_missed, verdict, scratch_words};
ghost use Rattle.theory.specs.Lines.{Sound};
ghost use Rattle.image_laws.specs.Sized.{Sized};
ghost use Rattle.report_laws.specs.Stretch.{Lying};

// Whether an object within reach lies in a stretch.
fn held_freed(im: &[u16], k: usize, report: &[u8], c: usize, s: &mut [u16]) -> bool
    requires sized { Sized 16 k im.now }
    requires sound { Sound (image_of 16 k im.now) }
    requires lying { Lying report.now c k }
    requires s_len { length s.old ≡ 2 * (64 * k / 16) }
    ensures { result ≡ held_freed (image_of 16 k im.now) report.now }
{
    search::reach(im, k, s);
    report_planes::plane::any_in(report, c, s)
}

// Whether a start out of reach lies in no stretch.
fn lost_missed(im: &[u16], k: usize, report: &[u8], c: usize, s: &mut [u16]) -> bool
    requires sized { Sized 16 k im.now }
    requires sound { Sound (image_of 16 k im.now) }
    requires lying { Lying report.now c k }
    requires s_len { length s.old ≡ 2 * (64 * k / 16) }
    ensures { result ≡ lost_missed (image_of 16 k im.now) report.now }
{
    search::reach(im, k, s);
    report_planes::plane::cover_all(report, c, s);
    report_planes::plane::any_bare(im, k, s)
}

// The verdict, as the number that C gets of it. The planes are left as the last search and the stretches have left them.
fn by_planes(first: &[u16], second: &[u16], k: usize, report: &[u8], s: &mut [u16]) -> u16
    requires sized { Sized 16 k first.now × Sized 16 k second.now }
    requires sound { Sound (image_of 16 k first.now) × Sound (image_of 16 k second.now) }
    requires s_len { length s.old ≡ 2 * (64 * k / 16) }
    ensures { result ≡ verdict (image_of 16 k first.now) (image_of 16 k second.now) report.now }
{
    let c = report.len() / 4;
    if !report_stretches::stretch::all_good(second, k, report, c) {
        return 12;
    }
    if held_freed(second, k, report, c, s) {
        return 13;
    }
    if lost_missed(first, k, report, c, s) {
        return 14;
    }
    0
}

// The verdict, and a scratch of zeros, whatever it held.
pub fn verdict(first: &[u16], second: &[u16], k: usize, report: &[u8], scratch: &mut [u16]) -> u16
    requires sized { Sized 16 k first.now × Sized 16 k second.now }
    requires sound { Sound (image_of 16 k first.now) × Sound (image_of 16 k second.now) }
    requires scratch_len { length scratch.old ≡ scratch_words k }
    ensures value { result ≡ verdict (image_of 16 k first.now) (image_of 16 k second.now) report.now }
    ensures scratch_after { scratch.new ≡ zeros scratch.old }
{
    let r = by_planes(first, second, k, report, scratch);
    stretches::clearing::clear(scratch);
    r
}
