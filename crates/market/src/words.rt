//! The words of the command line.

ghost use Rattle.std.specs.Prelude.{◌≡◌, map, string_bytes};
ghost use Rattle.market.specs.Words.{command_of};

use market_amounts::read_number;

/// What the words ask for.
#[derive(Clone, Copy, Debug, PartialEq, Eq)]
pub enum Command {
    /// `run SEED 0`: the seed has no effect, since no trouble is planned.
    Run(u64),
}

impl Command {
    /// What the words after the program's name ask for; none where they are of no form.
    pub fn from_words(words: &[String]) -> Option<Command>
        ensures { result ≡ command_of (map (λ word. string_bytes word) words.now) }
    {
        let [command, seed, trouble] = words else {
            return None;
        };
        if command.as_bytes() != b"run".as_slice() || trouble.as_bytes() != b"0".as_slice() {
            return None;
        }
        let seed = read_number(seed.as_bytes(), u64::MAX).ok()?;
        Some(Command::Run(seed))
    }
}
