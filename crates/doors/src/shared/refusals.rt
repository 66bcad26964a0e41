// The numbers of refusals.
ghost use Rattle.std.specs.Prelude.{◌≡◌};
ghost use Rattle.doors.specs.shared.GoingOn as going_on;

use locked_history::Refused;
use ov_base::Errno;

/// The number with which a frame tells that a call or a detach has no place in the history.
pub fn errno_of(why: Refused) -> Errno
    ensures { result ≡ going_on.errno_of why }
{
    match why {
        Refused::Memory => Errno::ENOMEM,
        Refused::Full => Errno::ENOSPC,
        Refused::Session | Refused::Stopped => Errno::EINVAL,
    }
}
