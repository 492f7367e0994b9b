//! The options of a run.

ghost use Rattle.std.specs.Prelude.{◌≡◌, map, string_bytes, codes};
ghost use Rattle.std.specs.Option.{option_map, option_and_then};
ghost use Rattle.jr_command.specs.Command.{option_value, next_word, behind, last_value, run_of, run_with, run_behind_seed, run_behind_budget};
ghost use Rattle.jr_command.specs.Valued.{valued};

use crate::command::Command;
use crate::number::number_from_to;

/// How many steps a run may make where the words don't say.
pub const DEFAULT_BUDGET: u32 = 200_000;

/// The most steps that a run may make.
pub const MAX_BUDGET: u32 = 2_000_000;

/// An option's value, and the words behind it.
#[derive(Clone, Copy)]
struct Valued<'a> {
    value: &'a [u8],
    rest: &'a [String],
}

/// The options' names.
const SERIAL: &str = "--serial";

const BUDGET: &str = "--budget";

// The value of that option, where the words begin with it, as two words or as one with `=`.
fn option_value<'a>(name: &str, words: &'a [String]) -> Option<Valued<'a>>
    ensures { option_map valued result ≡ option_value name.now (map string_bytes words.now) }
{
    let [word, rest @ ..] = words else {
        return None;
    };
    if word.as_str() == name {
        return next_word(rest);
    }
    let value = attached(name, word.as_bytes())?;
    Some(Valued { value, rest })
}

// The first word as a value, and the others.
fn next_word(words: &[String]) -> Option<Valued<'_>>
    ensures { option_map valued result ≡ next_word (map string_bytes words.now) }
{
    let [word, rest @ ..] = words else {
        return None;
    };
    Some(Valued {
        value: word.as_bytes(),
        rest,
    })
}

// What stands behind a name and `=`, where the word begins with them.
fn attached<'a>(name: &str, word: &'a [u8]) -> Option<&'a [u8]>
    ensures { option_map (λ v. v.now) result ≡ option_and_then (behind (codes "=")) (behind name.now word.now) }
{
    let rest = word.strip_prefix(name.as_bytes())?;
    rest.strip_prefix(b"=")
}

// A value with nothing behind it.
fn last_value(given: Valued<'_>) -> Option<&[u8]>
    ensures { option_map (λ v. v.now) result ≡ last_value (valued given.entry) }
{
    if given.rest.is_empty() {
        Some(given.value)
    } else {
        None
    }
}

// A run with that seed and that budget.
fn run_with(seed: &[u8], budget: &[u8]) -> Option<Command>
    ensures { result ≡ run_with seed.now budget.now }
{
    let seed = number_from_to(seed, 0, u32::MAX)?;
    let budget = number_from_to(budget, 1, MAX_BUDGET)?;
    Some(Command::RunSerial { seed, budget })
}

// A run whose seed was given first.
fn run_behind_seed(given: Valued<'_>) -> Option<Command>
    ensures { result ≡ run_behind_seed (valued given.entry) }
{
    if given.rest.is_empty() {
        let seed = number_from_to(given.value, 0, u32::MAX)?;
        return Some(Command::RunSerial {
            seed,
            budget: DEFAULT_BUDGET,
        });
    }
    let budget = last_value(option_value(BUDGET, given.rest)?)?;
    run_with(given.value, budget)
}

// A run whose budget was given first.
fn run_behind_budget(given: Valued<'_>) -> Option<Command>
    ensures { result ≡ run_behind_budget (valued given.entry) }
{
    let seed = last_value(option_value(SERIAL, given.rest)?)?;
    run_with(seed, given.value)
}

/// The run that the words behind `run` ask for, if they are such.
pub fn run_of(words: &[String]) -> Option<Command>
    ensures { result ≡ run_of (map string_bytes words.now) }
{
    match option_value(SERIAL, words) {
        Some(given) => run_behind_seed(given),
        None => run_behind_budget(option_value(BUDGET, words)?),
    }
}
