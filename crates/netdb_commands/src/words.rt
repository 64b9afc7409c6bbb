//! Which command the words are.
ghost use Rattle.std.specs.Prelude.{◌≡◌, ◌∷◌, [], ◌<◌, ◌^◌, ◌↔◌, ℕ, IsTrue, MatchOption, codes};
ghost use Rattle.std.specs.Fmt.{decimal};
ghost use Rattle.netdb_spec.specs.Command.{AreWorkers, Asks, IsCommand, IsCrew, IsLimit, IsSize, request_of, spelled};

use gen_spec::MOST_SIZE;
use itoa::Buffer;
use netdb_spec::{Command, MOST_WORKERS, Wanted};
use script_spec::MOST_SCRIPTS;

/// The command that the words are, where they are one.
pub fn command_of(words: &[String]) -> Option<Command<'_>>
    ensures { MatchOption result (IsCommand (spelled words.now) → ⊥) (λ command. Asks (spelled words.now) (request_of command)) }
{
    let Some((first, others)) = words.split_first() else {
        return None;
    };
    let Some((second, rest)) = others.split_first() else {
        return None;
    };
    command_with(first.as_str(), second.as_str(), rest)
}

/// The command that a first word, a second one and others are.
fn command_with<'a>(first: &str, second: &'a str, rest: &'a [String]) -> Option<Command<'a>>
    ensures { MatchOption result (IsCommand (first.now ∷ second.now ∷ spelled rest.now) → ⊥) (λ command. Asks (first.now ∷ second.now ∷ spelled rest.now) (request_of command)) }
{
    if first == "write" {
        return write_of(second, rest);
    }
    if first == "flat" {
        return flat_of(second, rest);
    }
    if first == "run" {
        return run_of(second, rest);
    }
    if first == "uses" {
        return uses_of(second, rest);
    }
    if first == "check" {
        return check_of(second, rest);
    }
    if rest.is_empty() {
        return short_command(first, second);
    }
    None
}

/// Whether there are as many scripts as a run may have.
fn is_crew(scripts: &[String]) -> bool
    ensures { IsTrue result ↔ IsCrew (spelled scripts.now) }
{
    1 <= scripts.len() && scripts.len() <= MOST_SCRIPTS
}

/// The command that `run`, a word and others are.
fn run_of<'a>(name: &'a str, scripts: &'a [String]) -> Option<Command<'a>>
    ensures { MatchOption result (IsCommand (codes "run" ∷ name.now ∷ spelled scripts.now) → ⊥) (λ command. Asks (codes "run" ∷ name.now ∷ spelled scripts.now) (request_of command)) }
{
    if is_crew(scripts) {
        return Some(Command::Run { name, scripts });
    }
    None
}

/// The command that `uses`, a word and others are.
fn uses_of<'a>(name: &'a str, scripts: &'a [String]) -> Option<Command<'a>>
    ensures { MatchOption result (IsCommand (codes "uses" ∷ name.now ∷ spelled scripts.now) → ⊥) (λ command. Asks (codes "uses" ∷ name.now ∷ spelled scripts.now) (request_of command)) }
{
    if is_crew(scripts) {
        return Some(Command::Uses { name, scripts });
    }
    None
}

/// The command that `check`, a word and others are.
fn check_of<'a>(name: &'a str, rest: &'a [String]) -> Option<Command<'a>>
    ensures { MatchOption result (IsCommand (codes "check" ∷ name.now ∷ spelled rest.now) → ⊥) (λ command. Asks (codes "check" ∷ name.now ∷ spelled rest.now) (request_of command)) }
{
    let Some((report, scripts)) = rest.split_first() else {
        return None;
    };
    let report = report.as_str();
    if is_crew(scripts) {
        return Some(Command::Check {
            name,
            report,
            scripts,
        });
    }
    None
}

/// The command that `write`, a word and others are.
fn write_of<'a>(name: &'a str, rest: &[String]) -> Option<Command<'a>>
    ensures { MatchOption result (IsCommand (codes "write" ∷ name.now ∷ spelled rest.now) → ⊥) (λ command. Asks (codes "write" ∷ name.now ∷ spelled rest.now) (request_of command)) }
{
    match rest {
        [] => Some(Command::Show {
            name,
            wanted: Wanted::Text,
        }),
        [third] => used(name, third.as_str()),
        _ => None,
    }
}

/// The command that `write` and two words are.
fn used<'a>(name: &'a str, third: &str) -> Option<Command<'a>>
    ensures { MatchOption result (IsCommand (codes "write" ∷ name.now ∷ third.now ∷ []) → ⊥) (λ command. Asks (codes "write" ∷ name.now ∷ third.now ∷ []) (request_of command)) }
{
    if third != "used" {
        return None;
    }
    Some(Command::Show {
        name,
        wanted: Wanted::Used,
    })
}

/// The command that `flat`, a word and others are.
fn flat_of<'a>(name: &'a str, rest: &[String]) -> Option<Command<'a>>
    ensures { MatchOption result (IsCommand (codes "flat" ∷ name.now ∷ spelled rest.now) → ⊥) (λ command. Asks (codes "flat" ∷ name.now ∷ spelled rest.now) (request_of command)) }
{
    match rest {
        [] => Some(Command::Show {
            name,
            wanted: Wanted::Items { limit: None },
        }),
        [third, number] => numbered(name, third.as_str(), number.as_str()),
        _ => None,
    }
}

/// The command that `flat` and three words are.
fn numbered<'a>(name: &'a str, third: &str, number: &str) -> Option<Command<'a>>
    ensures { MatchOption result (IsCommand (codes "flat" ∷ name.now ∷ third.now ∷ number.now ∷ []) → ⊥) (λ command. Asks (codes "flat" ∷ name.now ∷ third.now ∷ number.now ∷ []) (request_of command)) }
{
    if third == "limit" {
        return limited(name, number);
    }
    if third == "workers" {
        return spread(name, number);
    }
    None
}

/// The command that `flat`, a word, `limit` and a last one are.
fn limited<'a>(name: &'a str, limit: &str) -> Option<Command<'a>>
    ensures { MatchOption result (IsCommand (codes "flat" ∷ name.now ∷ codes "limit" ∷ limit.now ∷ []) → ⊥) (λ command. Asks (codes "flat" ∷ name.now ∷ codes "limit" ∷ limit.now ∷ []) (request_of command)) }
{
    let limit = limit_in(limit)?;
    Some(Command::Show {
        name,
        wanted: Wanted::Items { limit: Some(limit) },
    })
}

/// The command that `flat`, a word, `workers` and a last one are.
fn spread<'a>(name: &'a str, workers: &str) -> Option<Command<'a>>
    ensures { MatchOption result (IsCommand (codes "flat" ∷ name.now ∷ codes "workers" ∷ workers.now ∷ []) → ⊥) (λ command. Asks (codes "flat" ∷ name.now ∷ codes "workers" ∷ workers.now ∷ []) (request_of command)) }
{
    let workers = workers_in(workers)?;
    Some(Command::Show {
        name,
        wanted: Wanted::Spread { workers },
    })
}

/// The command that two words are, the first of which is none that may have others behind.
fn short_command<'a>(first: &str, second: &'a str) -> Option<Command<'a>>
    requires write { first.now ≡ codes "write" → ⊥ }
    requires flat { first.now ≡ codes "flat" → ⊥ }
    ensures { MatchOption result (IsCommand (first.now ∷ second.now ∷ []) → ⊥) (λ command. Asks (first.now ∷ second.now ∷ []) (request_of command)) }
{
    if first == "csv" {
        return Some(Command::Show {
            name: second,
            wanted: Wanted::Pins,
        });
    }
    if first == "erc" {
        return Some(Command::Show {
            name: second,
            wanted: Wanted::Findings,
        });
    }
    if first != "gen" {
        return None;
    }
    let size = size_in(second)?;
    Some(Command::Generate { size })
}

/// The number of workers that a word is: from 1 to 64.
fn workers_in(word: &str) -> Option<u32>
    ensures { MatchOption result ((n : ℕ) → AreWorkers n → word.now ≡ decimal n → ⊥) (λ n. AreWorkers n × (word.now ≡ decimal n)) }
{
    let workers = number_in(word)?;
    if workers == 0 {
        return None;
    }
    if workers > MOST_WORKERS {
        return None;
    }
    Some(workers)
}

/// The limit that a word is: a number from 1 to 4,294,967,295.
fn limit_in(word: &str) -> Option<u32>
    ensures { MatchOption result ((n : ℕ) → IsLimit n → word.now ≡ decimal n → ⊥) (λ n. IsLimit n × (word.now ≡ decimal n)) }
{
    let limit = number_in(word)?;
    if limit == 0 {
        return None;
    }
    Some(limit)
}

/// The size that a word is: a number from 1 to 4,096.
fn size_in(word: &str) -> Option<u32>
    ensures { MatchOption result ((n : ℕ) → IsSize n → word.now ≡ decimal n → ⊥) (λ n. IsSize n × (word.now ≡ decimal n)) }
{
    let size = number_in(word)?;
    if size == 0 {
        return None;
    }
    if size > MOST_SIZE {
        return None;
    }
    Some(size)
}

/// The number of 32 bits that a word is, in decimal digits, without a sign and without a zero before it.
fn number_in(word: &str) -> Option<u32>
    ensures { MatchOption result ((n : ℕ) → n < 2 ^ 32 → word.now ≡ decimal n → ⊥) (λ n. (n < 2 ^ 32) × (word.now ≡ decimal n)) }
{
    let Ok(number) = word.parse::<u32>() else {
        return None;
    };
    let mut buffer = Buffer::new();
    if buffer.format(number) != word {
        return None;
    }
    Some(number)
}
