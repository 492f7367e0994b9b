//! The words after the program's name.

ghost use Rattle.std.specs.Prelude.{◌≡◌, [], ◌∷◌, ◌++◌, OnOk, OnErr, map, string_bytes};
ghost use Rattle.jr_command.specs.Command.{line, if_last};

use crate::command::Command;
use crate::options::run_of;
use jr_base::Memory;
use std::alloc::Global;
use std::marker::Model;

/// The words after the program's name, in order. Contracts see the list of their texts.
#[derive(Debug, Drop)]
pub struct Words {
    words: Vec<String>,
}

impl Model for Words {
    ghost use Rattle.std.specs.Prelude.{List, ℕ, map, string_bytes};

    ghost Value = { List (List ℕ) };

    ghost view = { λ w. map string_bytes w.words.items };
}

impl Words {
    /// No words. Takes no memory.
    pub fn new(alloc: Global) -> Self
        ensures { result ≡ [] }
    {
        Words {
            words: Vec::new(alloc),
        }
    }

    /// Adds a word at the end.
    pub fn push(&mut self, word: &str) -> Result<(), Memory>
        ensures ok { OnOk result (self.new ≡ self.old ++ word.now ∷ []) }
        ensures err { OnErr result (self.new ≡ self.old) }
    {
        let text = String::from_str(*self.words.allocator(), word)?;
        self.words.push(text)?;
        Ok(())
    }

    /// What the words ask for, or `None` where they aren't a list that is allowed. The first word is the command: `run`,
    /// with `--serial SEED` and, if wanted, `--budget N`, in either order, each as two words or as one with `=`; or `check`
    /// or `clauses`, with nothing behind it. SEED is from 0 to 4,294,967,295 and N from 1 to 2,000,000, each of 1 to 10
    /// digits.
    pub fn command(&self) -> Option<Command>
        ensures { result ≡ line self.now }
    {
        let [name, words @ ..] = self.words.as_slice() else {
            return None;
        };
        match name.as_str() {
            "run" => run_of(words),
            "check" => alone(Command::Check, words),
            "clauses" => alone(Command::Clauses, words),
            _ => None,
        }
    }
}

// The command, where no word stands behind its name.
fn alone(command: Command, words: &[String]) -> Option<Command>
    ensures { result ≡ if_last command (map string_bytes words.now) }
{
    if words.is_empty() {
        Some(command)
    } else {
        None
    }
}
