//! How a command ends.

ghost use Rattle.std.specs.Prelude.{◌≡◌, OnOk};
ghost use Rattle.std.specs.Io.KnownBytes.{Appends};
ghost use Rattle.market.specs.Statuses.{exit_of, told_of, input_rule_of};

use market_texts::WorkRule;
use std::error::Error;
use std::io::Write;
use std::{fmt, io};

/// The rules that a bad record can break.
#[derive(Clone, Copy, Debug, PartialEq, Eq)]
pub enum InputRule {
    Fields,
    Number,
    Range,
    Kind,
}

impl fmt::Display for InputRule {
    ghost use Rattle.std.specs.Prelude.{Some};
    ghost use Rattle.market.specs.Statuses.{rule_text};

    ghost output = { λ rule. Some (rule_text rule) };

    fn fmt<W: fmt::Write>(&self, f: &mut fmt::Formatter<W>) -> fmt::Result {
        match self {
            InputRule::Fields => f.write_str("fields"),
            InputRule::Number => f.write_str("number"),
            InputRule::Range => f.write_str("range"),
            InputRule::Kind => f.write_str("kind"),
        }
    }
}

impl InputRule {
    /// The rule of a workload record.
    pub fn of_work(rule: WorkRule) -> InputRule
        ensures { result ≡ input_rule_of rule }
    {
        match rule {
            WorkRule::Fields => InputRule::Fields,
            WorkRule::Number => InputRule::Number,
            WorkRule::Range => InputRule::Range,
            WorkRule::Kind => InputRule::Kind,
        }
    }
}

/// How a command ended. The text is what the program writes on standard error.
#[derive(Debug, Drop, PartialEq)]
pub enum Status {
    Done,
    /// The words are of no form.
    Usage,
    /// The input has more than 67,108,864 bytes.
    InputTooLong,
    /// This record, counted from 1, is the first that breaks a rule, and this is the first that it breaks.
    BadInput(u32, InputRule),
    /// The source of the input failed.
    ReadFault,
    /// The sink of the output failed.
    WriteFault,
    OutOfMemory,
}

impl fmt::Display for Status {
    ghost use Rattle.std.specs.Prelude.{Some};
    ghost use Rattle.market.specs.Statuses.{text_of_status};

    ghost output = { λ status. Some (text_of_status status) };

    fn fmt<W: fmt::Write>(&self, f: &mut fmt::Formatter<W>) -> fmt::Result {
        match self {
            Status::Done => Ok(()),
            Status::Usage => f.write_str("usage"),
            Status::InputTooLong => f.write_str("input too long"),
            Status::BadInput(n, rule) => write!(f, "line {n}: {rule}"),
            Status::ReadFault => f.write_str("read fault"),
            Status::WriteFault => f.write_str("write fault"),
            Status::OutOfMemory => f.write_str("out of memory"),
        }
    }
}

impl Error for Status {}

impl Status {
    /// The exit status of the program.
    pub fn exit(&self) -> u8
        ensures { result ≡ exit_of self.now }
    {
        match self {
            Status::Done => 0,
            Status::Usage => 2,
            Status::InputTooLong | Status::BadInput(..) => 3,
            Status::ReadFault => 4,
            Status::WriteFault => 5,
            Status::OutOfMemory => 9,
        }
    }

    /// Writes the text and a line feed, and nothing for `Done`. It takes no memory.
    pub fn tell<W: Write>(&self, to: &mut W) -> io::Result<()>
        ensures { OnOk result (Appends (W.contents to.old) (W.contents to.new) (told_of self.now)) }
    {
        match self {
            Status::Done => Ok(()),
            _ => writeln!(to, "{self}"),
        }
    }
}
