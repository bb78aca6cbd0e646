//! Why a word is not of its form.

/// Why a word is not of its form.
#[derive(Clone, Copy, Debug, PartialEq, Eq)]
pub enum WordFault {
    /// It is not spelled as the form says.
    Field,
    /// It is, and a number in it is out of its range.
    Range,
}
