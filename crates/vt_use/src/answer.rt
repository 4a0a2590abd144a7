//! What a job of one block comes to.

ghost use Rattle.std.specs.Prelude.{◌≡◌};
ghost use Rattle.vt_use.specs.PlaceAnswers.{answer_at, answer_in};

use crate::used_at::{StoreError, UsedAt};
use vt_base::Why;
use vt_tree::BlockErr;

/// What was asked for, where all was done; and else why not: why the store wasn't used, why it said
/// no first, or what failed at the end of its use.
pub fn answer_at<T: Drop>(
    used: Result<UsedAt<Result<T, BlockErr>>, StoreError>,
) -> Result<T, StoreError>
    ensures { result ≡ answer_at used }
{
    match used {
        Ok(
            UsedAt {
                output,
                refusal,
                blocks: _,
                closed,
            },
        ) => answer_in(output, refusal, closed),
        Err(bad) => Err(bad),
    }
}

/// The same, of a store that was used. Where it never said no, and the job gave up all the same, memory
/// was wanting for the job itself.
fn answer_in<T: Drop>(
    output: Result<T, BlockErr>,
    refusal: Option<StoreError>,
    closed: Result<(), StoreError>,
) -> Result<T, StoreError>
    ensures { result ≡ answer_in output refusal closed }
{
    match (output, refusal, closed) {
        (Ok(value), _, Ok(())) => Ok(value),
        (Ok(_), _, Err(bad)) => Err(bad),
        (Err(_), Some(bad), _) => Err(bad),
        (Err(_), None, _) => Err(StoreError::Refused(Why::NoMemory)),
    }
}
