// The map for the service sheet: the store printed into lent bytes, a line for each card.
#![tactic(auto)]

ghost use Rattle.std.specs.Prelude.{◌≡◌};
ghost use Rattle.model.specs.Map.{map_at};
ghost use Rattle.image_laws.specs.Result.{result_of};
ghost use Rattle.service_map_laws.specs.Mapped.{mapped_of};

use image::word::Word;
use image_laws::Fault;

fn verdict<W: Word>(im: &[W], output: &mut [u8]) -> Result<(), Fault>
    ensures { mapped_of (result_of result) output.new ≡ map_at W.BITS (W.words im.now) output.old }
{
    let k = size::cards::<W>(im.len()).ok_or(Fault::Misfit)?;
    if output.len() != 73 * k {
        return Err(Fault::Misfit);
    }
    if !judge::is_undamaged(im, k) {
        return Err(Fault::Damaged);
    }
    map_lines::lines::draw(im, k, output);
    Ok(())
}

// "A lent output of another length than 73 bytes a line, or a bad image, leaves it unwritten. Checks: 1 and 2, as for a batch."
pub fn service_map<W: Word>(im: &[W], output: &mut [u8]) -> u16
    ensures { mapped_of result output.new ≡ map_at W.BITS (W.words im.now) output.old }
{
    image::result::result(verdict(im, output))
}
