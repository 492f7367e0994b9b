//! Laws of signs, each a function with no work to do: its contract is the law.

ghost use Rattle.std.specs.Prelude.{ℕ, Bool, List};
ghost use Rattle.jr_lexer.specs.Signs.{longest_sign};
ghost use Rattle.jr_token_laws.specs.LongestSign.{IsLongest};

/// The sign that is read at a place is the longest of those that may be read there (JLS 3.2, 3.12): there is none only
/// where none may be.
pub fn signs_are_longest()
    ensures { (jml : Bool) (text : List ℕ) → IsLongest jml text (longest_sign jml text) }
{}
