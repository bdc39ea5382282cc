// A fresh store made in a lent slice.
#![tactic(auto)]

ghost use Rattle.std.specs.Prelude.{◌≡◌};
ghost use Rattle.model.specs.Undamaged.{fresh_store, fresh_at};
ghost use Rattle.image_laws.specs.Sized.{Sized};
ghost use Rattle.image_laws.specs.Fresh.{made_of};
ghost use Rattle.image_laws.specs.Result.{result_of};

use image::word::Word;
use image_laws::Fault;

pub fn make_fresh<W: Word>(im: &mut [W], k: usize)
    requires { Sized W.BITS k (W.words im.old) }
    ensures { W.words im.new ≡ fresh_store W.BITS k }
{
    stretches::clearing::clear(im);
    image::sections::set_word(im, k, 1, 0, W::of(64 * k - 1));
    image::sections::set_first_run(im, k, W::of(1));
}

fn make<W: Word>(im: &mut [W]) -> Result<(), Fault>
    ensures { made_of (result_of result) (W.words im.new) ≡ fresh_at W.BITS (W.words im.old) }
{
    let k = size::cards::<W>(im.len()).ok_or(Fault::Misfit)?;
    make_fresh(im, k);
    Ok(())
}

// "Making one overwrites a slice of fitting length and gives 0, else gives 1 and writes nothing."
pub fn fresh<W: Word>(im: &mut [W]) -> u16
    ensures { made_of result (W.words im.new) ≡ fresh_at W.BITS (W.words im.old) }
{
    image::result::result(make(im))
}
