// An older desk's sweep report, judged.
#![tactic(auto)]

ghost use Rattle.std.specs.Prelude.{◌≡◌, not};
ghost use Rattle.model.specs.Report.{either_damaged, report_at};
ghost use Rattle.image_laws.specs.Sized.{Sized};
ghost use Rattle.report_laws.specs.Reported.{reported_of, report_extent};

pub mod verdict; // verdict.rt: numbers 13 and 14, and the verdict

// The cards of both images, if all four lengths fit.
fn extent(first: &[u16], second: &[u16], report: &[u8], scratch: &[u16]) -> Option<usize>
    ensures { result ≡ report_extent 16 first.now second.now report.now scratch.now }
{
    let k = size::cards::<u16>(first.len())?;
    if second.len() != first.len() {
        return None;
    }
    if report.len() % 4 != 0 {
        return None;
    }
    if scratch.len() != 8 * k {
        return None;
    }
    Some(k)
}

fn both_undamaged(first: &[u16], second: &[u16], k: usize) -> bool
    requires { Sized 16 k first.now × Sized 16 k second.now }
    ensures { result ≡ not (either_damaged 16 first.now second.now) }
{
    judge::is_undamaged(first, k) && judge::is_undamaged(second, k)
}

// "Given the image at the begin, the image just before the finish and such a report, say whether it is acceptable."
// Reports are of stores of 16-bit words alone.
pub fn judge_report(first: &[u16], second: &[u16], report: &[u8], scratch: &mut [u16]) -> u16
    ensures { reported_of result scratch.new ≡ report_at 16 first.now second.now report.now scratch.old }
{
    let Some(k) = extent(first, second, report, scratch) else {
        return 1;
    };
    if !both_undamaged(first, second, k) {
        return 2;
    }
    crate::verdict::verdict(first, second, k, report, scratch)
}
