//! Why a configuration is refused.

ghost use Rattle.std.specs.Prelude.{◌≡◌};
ghost use Rattle.vt_conf.specs.Causes.{cause_text};

use std::alloc::{AllocError, AllocFailed};

/// What is wrong with a configuration.
#[derive(Clone, Copy, Debug, PartialEq, Eq)]
pub enum ConfCause {
    /// The line isn't UTF-8.
    NotUtf8,
    /// The line ends with a carriage return, as those of a text with DOS line ends do.
    CarriageReturn,
    /// More than 65,536 bytes.
    TooLong,
    /// The line's first word is none of those known.
    UnknownName,
    /// The line's first word wants a value, and none stands there.
    MissingValue,
    /// More words stand on the line than its first one wants.
    ExtraValue,
    /// The value is no size.
    BadSize,
    /// The value is no address.
    BadAddress,
    /// An earlier line says what may be said once.
    Repeated,
    /// There are 64 such files before.
    TooMany,
    /// No line names a file of arenas.
    NoArenas,
    /// No line names a file with an index section.
    NoSections,
}

/// A configuration is refused.
#[derive(Clone, Copy, Debug, PartialEq, Eq)]
pub struct ConfBad {
    /// The line, counted from 1, or 0 where the whole text is meant.
    pub line: usize,
    pub why: ConfCause,
}

/// Why a configuration wasn't read.
#[derive(Clone, Copy, Debug, PartialEq, Eq)]
pub enum ConfErr {
    /// A line of it is refused, or the whole text.
    Bad(ConfBad),
    /// Memory ran out.
    NoMemory,
}

impl From<AllocError> for ConfErr {
    ghost use Rattle.std.specs.Prelude.{◌≡◌};
    ghost use Rattle.vt_conf.specs.declared.error.ConfErr.TheVariants.{NoMemory};

    ghost from_gives = { λ _ e. e ≡ NoMemory };

    /// Memory that wasn't there is `NoMemory`.
    fn from(_error: AllocError) -> Self {
        ConfErr::NoMemory
    }
}

impl<T: Drop> From<AllocFailed<T>> for ConfErr {
    ghost use Rattle.std.specs.Prelude.{◌≡◌};
    ghost use Rattle.vt_conf.specs.declared.error.ConfErr.TheVariants.{NoMemory};

    ghost from_gives = { λ _ e. e ≡ NoMemory };

    /// Memory that wasn't there is `NoMemory`; what should have gone there is dropped.
    fn from(_error: AllocFailed<T>) -> Self {
        ConfErr::NoMemory
    }
}

impl From<ConfBad> for ConfErr {
    ghost use Rattle.std.specs.Prelude.{◌≡◌};
    ghost use Rattle.vt_conf.specs.declared.error.ConfErr.TheVariants.{Bad};

    ghost from_gives = { λ bad e. e ≡ Bad bad };

    /// What is wrong with the text, as it is.
    fn from(bad: ConfBad) -> Self {
        ConfErr::Bad(bad)
    }
}

/// The text that tells the cause.
pub fn conf_text(why: &ConfCause) -> &'static str
    ensures { result.now ≡ cause_text why.now }
{
    match why {
        ConfCause::NotUtf8 => "not utf-8",
        ConfCause::CarriageReturn => "ends with a carriage return",
        ConfCause::TooLong => "too long",
        ConfCause::UnknownName => "unknown name",
        ConfCause::MissingValue => "missing value",
        ConfCause::ExtraValue => "extra value",
        ConfCause::BadSize => "bad size",
        ConfCause::BadAddress => "bad address",
        ConfCause::Repeated => "repeated",
        ConfCause::TooMany => "too many",
        ConfCause::NoArenas => "no arenas",
        ConfCause::NoSections => "no sections",
    }
}
