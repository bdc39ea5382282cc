// A batch: refused by a length or a damaged image, or run to its end.
#![tactic(auto)]

ghost use Rattle.std.specs.Prelude.{◌≡◌};
ghost use Rattle.model.specs.Mutate.{tightest};
ghost use Rattle.model.specs.Batch.{batch_at};
ghost use Rattle.image_laws.specs.Result.{result_of};
ghost use Rattle.show_store_laws.specs.Run.{batched};

use image_laws::Fault;
use records::format::Format;

fn verdict<W: Format>(im: &mut [W], steps: &[u8], answers: &mut [W]) -> Result<(), Fault>
    ensures { batched (result_of result) (W.words im.new) (W.words answers.new) ≡ batch_at tightest W.BITS (W.words im.old) steps.now (W.words answers.old) }
{
    let k = size::cards::<W>(im.len()).ok_or(Fault::Misfit)?;
    let n = steps.len() / W::RECORD;
    if steps.len() % W::RECORD != 0 || answers.len() != 2 * n {
        return Err(Fault::Misfit);
    }
    if !judge::is_undamaged(im, k) {
        return Err(Fault::Damaged);
    }
    run::run_all(im, k, steps, answers);
    Ok(())
}

// "1 and 2 refuse the call, are its result (0 otherwise) and leave image and answers alone"
pub fn batch<W: Format>(im: &mut [W], steps: &[u8], answers: &mut [W]) -> u16
    ensures { batched result (W.words im.new) (W.words answers.new) ≡ batch_at tightest W.BITS (W.words im.old) steps.now (W.words answers.old) }
{
    image::result::result(verdict(im, steps, answers))
}
