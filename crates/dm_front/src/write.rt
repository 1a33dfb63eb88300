//! How the program ends that has written a text.
ghost use Rattle.std.specs.Prelude.{◌≡◌};
ghost use Rattle.dm_front.specs.Written.{unless_failed};

use dm_ending::status::Status;
use dm_outside::Failed;

/// How the program ends that wrote a text: so, unless the sink failed.
pub fn ended(wrote: Result<(), Failed>, otherwise: Status) -> Status
    ensures { result ≡ unless_failed wrote otherwise }
{
    match wrote {
        Ok(()) => otherwise,
        Err(_) => Status::WriteFault,
    }
}
