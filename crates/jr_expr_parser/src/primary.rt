//! A primary, and what follows it.

ghost use Rattle.std.specs.Prelude.{◌≡◌, ◌≤◌, false};
ghost use Rattle.jr_ast.specs.Expressions.{place_of};
ghost use Rattle.jr_reading.specs.Limits.{nesting_limit};
ghost use Rattle.jr_expr_parser.specs.Primaries.{whole};
ghost use Rattle.jr_expr_parser.specs.Nesting.{nesting, is_implied_by, is_new_array};

use jr_ast::{Shape, Suffix};
use jr_base::Span;
use sqlite_items::Items;

/// A primary with the suffixes that were read so far.
#[derive(Drop)]
pub struct Primary {
    pub place: Span,
    pub shape: Shape,
    pub suffixes: Items<Suffix>,
    /// The nesting of the whole.
    pub height: u8,
    /// Whether it is a `new T[size]` alone, behind which no index stands.
    pub new_array: bool,
    ghost placed: { place_of (whole place shape suffixes) ≡ place },
    ghost tall: { height ≡ nesting (whole place shape suffixes) },
    ghost low: { height ≤ nesting_limit },
    ghost array: { new_array ≡ is_new_array (whole place shape suffixes) },
    ghost chain: { is_implied_by (whole place shape suffixes) ≡ false },
}
