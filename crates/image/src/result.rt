// The result of a call, as C gets it at either width.
ghost use Rattle.std.specs.Prelude.{◌≡◌};
ghost use Rattle.image_laws.specs.Result.{result_of};

use image_laws::Fault;

pub fn result(r: Result<(), Fault>) -> u16
    ensures { result ≡ result_of r }
{
    match r {
        Ok(()) => 0,
        Err(fault) => fault.into(),
    }
}
