// The library: a fresh store made, an image judged, a batch of steps run, a store printed, a sweep report judged; and the first three for the wide
// store. None asks anything of its caller (demand 1a of docs/DEMANDS.md); each contract says all that the call returns and leaves (1c, 1d, 2a).
#![tactic(auto)]

ghost use Rattle.std.specs.Prelude.{◌≡◌};
ghost use Rattle.model.specs.Batch.{fresh_of, judge_of, batch_of, batch_at};
ghost use Rattle.model.specs.Map.{map_of};
ghost use Rattle.model.specs.Mutate.{tightest};
ghost use Rattle.model.specs.Report.{report_of};
ghost use Rattle.model.specs.Undamaged.{fresh_at, judge_at};
ghost use Rattle.image_laws.specs.Fresh.{made_of};
ghost use Rattle.report_laws.specs.Reported.{reported_of};
ghost use Rattle.service_map_laws.specs.Mapped.{mapped_of};
ghost use Rattle.show_store_laws.specs.Run.{batched};

// "Making one overwrites a slice of fitting length and gives 0, else gives 1 and writes nothing."
pub fn fresh(image: &mut [u16]) -> u16
    ensures { made_of result image.new ≡ fresh_of image.old }
{
    fresh::fresh(image)
}

// "Judging gives 0, 1 or 2 and writes nothing."
pub fn judge(image: &[u16]) -> u16
    ensures { result ≡ judge_of image.now }
{
    judge::judge(image)
}

// "1 and 2 refuse the call, are its result (0 otherwise) and leave image and answers alone"
pub fn batch(image: &mut [u16], steps: &[u8], answers: &mut [u16]) -> u16
    ensures { batched result image.new answers.new ≡ batch_of image.old steps.now answers.old }
{
    batch::batch(image, steps, answers)
}

// "A lent output of another length than 73 bytes a line, or a bad image, leaves it unwritten. Checks: 1 and 2, as for a batch."
pub fn service_map(image: &[u16], output: &mut [u8]) -> u16
    ensures { mapped_of result output.new ≡ map_of image.now output.old }
{
    service_map::service_map(image, output)
}

// "Given the image at the begin, the image just before the finish and such a report, say whether it is acceptable."
pub fn judge_report(first: &[u16], second: &[u16], report: &[u8], scratch: &mut [u16]) -> u16
    ensures { reported_of result scratch.new ≡ report_of first.now second.now report.now scratch.old }
{
    report::judge_report(first, second, report, scratch)
}

// ---- the wide store: "Add a wide store of 32-bit words, to be made, judged and run in batches, no more"

pub fn wide_fresh(image: &mut [u32]) -> u16
    ensures { made_of result image.new ≡ fresh_at 32 image.old }
{
    fresh::fresh(image)
}

pub fn wide_judge(image: &[u32]) -> u16
    ensures { result ≡ judge_at 32 image.now }
{
    judge::judge(image)
}

pub fn wide_batch(image: &mut [u32], steps: &[u8], answers: &mut [u32]) -> u16
    ensures { batched result image.new answers.new ≡ batch_at tightest 32 image.old steps.now answers.old }
{
    batch::batch(image, steps, answers)
}
