//! Why the partition of a file is refused.
// Tests: crates/run_tests_stores/src/formatting.rt.

ghost use Rattle.run_base.specs.Formatting.{IsOfOneFile, IsRefusalOf};

use run_base::{CommandError, Shown, Unit};
use vt_base::{MountBad, Text};
use vt_out::Sink;

/// What is told where the partition of this file is refused, which is the only one. A file of which
/// a call failed is named on the terminal.
pub fn refused<T: Sink + Drop>(terminal: Option<T>, file: Text, bad: MountBad) -> CommandError
    requires { IsOfOneFile bad }
    ensures { IsRefusalOf file bad result }
{
    if let MountBad::Fault = bad {
        Shown::new(terminal, Unit::Buckets).name(file.as_slice());
        return CommandError::DiskFault;
    }
    refusal_of(file, bad)
}

/// What is told where the partition of this file is refused.
fn refusal_of(file: Text, bad: MountBad) -> CommandError
    requires { IsOfOneFile bad }
    ensures { IsRefusalOf file bad result }
{
    match bad {
        MountBad::Fault => CommandError::DiskFault,
        MountBad::NotFormatted { part: _ } => CommandError::NotFormatted { file },
        MountBad::TooSmall { part: _, len, need } => CommandError::TooSmall { file, len, need },
        MountBad::Disagree {
            part: _,
            field,
            found,
            want,
        } => CommandError::Disagree {
            file,
            field,
            found,
            want,
        },
        MountBad::NoMemory => CommandError::NoMemory,
        MountBad::DuplicateName { .. } | MountBad::Damaged { .. } => unreachable!(),
    }
}
