//! How a session over a store ended, as the outcome of its command.

ghost use Rattle.std.specs.Prelude.{◌≡◌};
ghost use Rattle.run_base.specs.Served.{failure_for, outcome_of, outcome_of_end};

use crate::error::CommandError;
use vt_base::Why;
use vt_session::Ended;
use vt_use::StoreServed;

/// The first cause in time: a failure in a request, the session's end, the end of the store's use.
pub fn outcome_of(served: StoreServed) -> Result<(), CommandError>
    ensures { result ≡ outcome_of served }
{
    if let Some(why) = served.failure {
        return Err(failure_for(why));
    }
    end_of(served.ended, served.taken)?;
    match served.closed {
        Ok(()) => Ok(()),
        Err(why) => Err(failure_for(why)),
    }
}

/// The outcome of a session by its end alone, of an input of which so many bytes were taken.
fn end_of(ended: Ended, taken: u64) -> Result<(), CommandError>
    ensures { result ≡ outcome_of_end ended taken }
{
    match ended {
        Ended::Goodbye | Ended::Closed => Ok(()),
        Ended::Cut => Err(CommandError::Cut(taken)),
        Ended::Malformed(place) => Err(CommandError::Malformed(place)),
        Ended::Spent => Err(CommandError::Spent(taken)),
        Ended::ReadFault => Err(CommandError::ReadFault),
        Ended::WriteFault => Err(CommandError::WriteFault),
        Ended::NoMemory => Err(CommandError::NoMemory),
    }
}

/// What is told where the store failed.
pub fn failure_for(why: Why) -> CommandError
    ensures { result ≡ failure_for why }
{
    match why {
        Why::Damaged {
            site: _,
            want,
            found,
        } => CommandError::Damaged { want, found },
        Why::NoMemory => CommandError::NoMemory,
        _ => CommandError::DiskFault,
    }
}
