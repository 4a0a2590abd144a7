//! Where the link of a dialer in memory is: not handed out yet, in use, back, or lost.

use std::mem;
use vt_out::MemLink;

/// Where the link of a dialer in memory is.
#[derive(Drop)]
pub(crate) enum Place {
    /// It waits to be made.
    Waiting(MemLink),
    /// It was made, and isn't back.
    Out,
    /// It was taken back.
    Back(MemLink),
    /// More than one was taken back.
    Lost,
}

impl Place {
    ghost use Rattle.std.specs.Prelude.{◌≡◌, Some, None, MatchOption};
    ghost use Rattle.vt_dial.specs.declared.place.Place.TheVariants.{Out};
    ghost use Rattle.vt_dial.specs.Places.{waiting_in};

    /// The link that waits, which then is out; None where none waits.
    pub fn take(&mut self) -> Option<MemLink>
        ensures link { result ≡ waiting_in self.old }
        ensures left { MatchOption result (self.new ≡ self.old) (λ _. self.new ≡ Out) }
    {
        match mem::replace(self, Place::Out) {
            Place::Waiting(link) => Some(link),
            other => {
                *self = other;
                None
            }
        }
    }
}
