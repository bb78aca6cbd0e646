//! Why a text is the text of no value.

ghost use Rattle.std.specs.Prelude.{◌≡◌};
ghost use Rattle.market_texts.specs.Reading.{fault_at};

use market_words::WordFault;
use std::alloc::{AllocError, AllocFailed};
use std::error::Error;
use std::fmt;

/// Why a text is the text of no well-formed value. Words are counted from 0.
#[derive(Clone, Copy, Debug, PartialEq, Eq)]
pub enum BodyError {
    /// The first word, or the kind of a request or reply, is none that there is.
    Kind,
    /// This word is missing, or is not of its form.
    Field(u32),
    /// A number in this word is out of its range, or is a total that is not the sum.
    Range(u32),
    /// There is a word too many.
    Extra,
}

impl fmt::Display for BodyError {
    ghost use Rattle.std.specs.Prelude.{Some};
    ghost use Rattle.market_texts.specs.FaultTexts.{error_text};

    ghost output = { λ error. Some (error_text error) };

    fn fmt<W: fmt::Write>(&self, f: &mut fmt::Formatter<W>) -> fmt::Result {
        match self {
            BodyError::Kind => f.write_str("kind"),
            BodyError::Field(place) => write!(f, "field {place}"),
            BodyError::Range(place) => write!(f, "range {place}"),
            BodyError::Extra => f.write_str("extra"),
        }
    }
}

impl Error for BodyError {}

/// Why a text was not read.
#[derive(Clone, Copy, Debug, PartialEq, Eq)]
pub enum BodyFault {
    Bad(BodyError),
    OutOfMemory,
}

impl fmt::Display for BodyFault {
    ghost use Rattle.std.specs.Prelude.{Some};
    ghost use Rattle.market_texts.specs.FaultTexts.{fault_text};

    ghost output = { λ fault. Some (fault_text fault) };

    fn fmt<W: fmt::Write>(&self, f: &mut fmt::Formatter<W>) -> fmt::Result {
        match self {
            BodyFault::Bad(error) => write!(f, "{error}"),
            BodyFault::OutOfMemory => f.write_str("out of memory"),
        }
    }
}

impl Error for BodyFault {}

impl From<AllocError> for BodyFault {
    ghost use Rattle.market_texts.specs.declared.faults.BodyFault.TheVariants.{OutOfMemory};
    ghost use Rattle.std.specs.Prelude.{◌≡◌};

    ghost from_gives = { λ _ fault. fault ≡ OutOfMemory };

    fn from(_error: AllocError) -> BodyFault {
        BodyFault::OutOfMemory
    }
}

impl<T: Drop> From<AllocFailed<T>> for BodyFault {
    ghost use Rattle.market_texts.specs.declared.faults.BodyFault.TheVariants.{OutOfMemory};
    ghost use Rattle.std.specs.Prelude.{◌≡◌};

    ghost from_gives = { λ _ fault. fault ≡ OutOfMemory };

    fn from(_error: AllocFailed<T>) -> BodyFault {
        BodyFault::OutOfMemory
    }
}

impl From<BodyError> for BodyFault {
    ghost use Rattle.market_texts.specs.declared.faults.BodyFault.TheVariants.{Bad};
    ghost use Rattle.std.specs.Prelude.{◌≡◌};

    ghost from_gives = { λ error fault. fault ≡ Bad error };

    fn from(error: BodyError) -> BodyFault {
        BodyFault::Bad(error)
    }
}

// The fault of the word at this place.
pub(crate) fn fault_of_word(fault: WordFault, place: u32) -> BodyError
    ensures { result ≡ fault_at place fault }
{
    match fault {
        WordFault::Field => BodyError::Field(place),
        WordFault::Range => BodyError::Range(place),
    }
}
