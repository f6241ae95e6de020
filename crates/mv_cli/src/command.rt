//! The words of the commands.
#![tactic(auto)]

ghost use Rattle.std.specs.Prelude.{◌≡◌, ◌∷◌, [], ℕ, ◌↔◌, IsTrue, map, string_bytes, MatchOption};
ghost use Rattle.mv_cli.specs.Words.{IsExtract, IsForm, IsNumber, IsPlain, IsSigned, Means, MeansPlain};

/// What the program can do.
#[derive(Clone, Copy, Debug, PartialEq, Eq)]
pub enum Command {
    /// Writes the units that are kept for this output layer set.
    Extract(u32),
    /// Checks a stream, and writes its totals.
    Check,
    /// Writes each unit of a byte stream behind its length.
    Pack,
    /// Writes each unit of the length-prefixed form behind a start code.
    Unpack,
}

/// The command that the words are, if they are a form.
pub fn command_of(words: &[String]) -> Option<Command>
    ensures { MatchOption result
        (¬ IsForm (map string_bytes words.now))
        (λ c. Means (map string_bytes words.now) c) }
{
    match set_of(words) {
        Some(ols) => Some(Command::Extract(ols)),
        None => plain_of(words),
    }
}

// The command of one word alone.
fn plain_of(words: &[String]) -> Option<Command>
    ensures { MatchOption result
        (¬ IsPlain (map string_bytes words.now))
        (λ c. MeansPlain (map string_bytes words.now) c) }
{
    if is_word(words, "check") {
        Some(Command::Check)
    } else if is_word(words, "pack") {
        Some(Command::Pack)
    } else if is_word(words, "unpack") {
        Some(Command::Unpack)
    } else {
        None
    }
}

// The number of the output layer set, where the words are `extract` and such a number.
fn set_of(words: &[String]) -> Option<u32>
    ensures { MatchOption result
        ((n : ℕ) → ¬ IsExtract (map string_bytes words.now) n)
        (λ n. IsExtract (map string_bytes words.now) n) }
{
    match words {
        [command, set] => number_behind(command.as_str(), set.as_str()),
        _ => None,
    }
}

// The number that the second word writes, where the first is `extract`.
fn number_behind(command: &str, set: &str) -> Option<u32>
    ensures { MatchOption result
        ((n : ℕ) → ¬ IsExtract (command.now ∷ set.now ∷ []) n)
        (λ n. IsExtract (command.now ∷ set.now ∷ []) n) }
{
    if command != "extract" {
        return None;
    }
    number_of(set)
}

// The number that a word writes: 1 to 10 decimal digits, with a value below 2^32.
fn number_of(word: &str) -> Option<u32>
    ensures { MatchOption result ((n : ℕ) → ¬ IsNumber word.now n) (λ n. IsNumber word.now n) }
{
    if word.len() > 10 {
        return None;
    }
    if is_signed(word) {
        return None;
    }
    match word.parse::<u32>() {
        Ok(number) => Some(number),
        Err(_) => None,
    }
}

// Whether a word begins with a plus.
fn is_signed(word: &str) -> bool
    ensures { IsTrue result ↔ IsSigned word.now }
{
    match word.as_bytes() {
        [first, ..] => *first == b'+',
        [] => false,
    }
}

// Whether a word is the only one.
fn is_word(words: &[String], word: &str) -> bool
    ensures { IsTrue result ↔ (map string_bytes words.now ≡ word.now ∷ []) }
{
    match words {
        [only] => only.as_str() == word,
        _ => false,
    }
}
