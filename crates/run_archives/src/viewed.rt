//! What is told of an archive that was served to a client, or couldn't be read.
// Tests: crates/run_tests_archives/src/vacfs.rt.

ghost use Rattle.std.specs.Prelude.{◌≡◌};
ghost use Rattle.run_archives.specs.Viewed.{fault_by, outcome_of_view, outcome_of_view_end, unread_block};
ghost use Rattle.run_archives.specs.Viewed.{unread_for, unread_tree};

use nine_view::{Ended, Served};
use run_base::CommandError;
use vac_read::VacBad;
use vt_base::FieldValue;
use vt_tree::{BlockErr, TreeErr};
use vt_use::StoreError;

/// The first cause in time: why the archive couldn't be read, or the connection's end. Of a server a
/// failed call is told by why that said no first.
pub fn outcome_of_view(
    answer: Result<Served, VacBad>,
    refusal: Option<StoreError>,
) -> Result<(), CommandError>
    ensures { result ≡ outcome_of_view answer refusal }
{
    let served = match answer {
        Ok(served) => served,
        Err(bad) => return Err(unread_for(bad, refusal)),
    };
    match served.failure {
        Some(bad) => Err(unread_for(bad, refusal)),
        None => end_of_view(served.ended, served.taken),
    }
}

/// The outcome by the connection's end alone, of an input of which so many bytes were taken.
fn end_of_view(ended: Ended, taken: u64) -> Result<(), CommandError>
    ensures { result ≡ outcome_of_view_end ended taken }
{
    match ended {
        Ended::Closed => Ok(()),
        Ended::Cut => Err(CommandError::Cut(taken)),
        Ended::Malformed(place) => Err(CommandError::Malformed(place)),
        Ended::Spent => Err(CommandError::Spent(taken)),
        Ended::ReadFault => Err(CommandError::ReadFault),
        Ended::WriteFault => Err(CommandError::WriteFault),
        Ended::NoMemory => Err(CommandError::NoMemory),
    }
}

/// What is told where an archive can't be read.
fn unread_for(bad: VacBad, refusal: Option<StoreError>) -> CommandError
    ensures { result ≡ unread_for bad refusal }
{
    match bad {
        VacBad::Tree(err) => unread_tree(err, refusal),
        VacBad::Root { .. } => CommandError::BadArchive(0),
        VacBad::Meta { at } => CommandError::BadArchive(at as u64),
        VacBad::NoMemory => CommandError::NoMemory,
    }
}

/// The same, of a stream in it.
fn unread_tree(err: TreeErr, refusal: Option<StoreError>) -> CommandError
    ensures { result ≡ unread_tree err refusal }
{
    match err {
        TreeErr::Block(err) => unread_block(err, refusal),
        TreeErr::NoMemory => CommandError::NoMemory,
        TreeErr::SourceFault | TreeErr::BadEntry(_) | TreeErr::BadBlock { .. } | TreeErr::TooLong =>
            CommandError::BadArchive(0),
    }
}

/// The same, of a block.
fn unread_block(err: BlockErr, refusal: Option<StoreError>) -> CommandError
    ensures { result ≡ unread_block err refusal }
{
    match err {
        BlockErr::Fault => fault_by(refusal),
        BlockErr::Refused(text) => CommandError::NoBlock(text),
        BlockErr::WrongScore { want, found } => CommandError::Damaged {
            want: FieldValue::Score(want),
            found: FieldValue::Score(found),
        },
        BlockErr::Damaged { want, found } => CommandError::Damaged { want, found },
        BlockErr::NoMemory => CommandError::NoMemory,
    }
}

/// A failed call: of a disk, or of the link to a server, which said no so.
fn fault_by(refusal: Option<StoreError>) -> CommandError
    ensures { result ≡ fault_by refusal }
{
    match refusal {
        Some(StoreError::Server(bad)) => CommandError::Server(bad),
        Some(StoreError::Unopened(_) | StoreError::Refused(_)) | None => CommandError::DiskFault,
    }
}
