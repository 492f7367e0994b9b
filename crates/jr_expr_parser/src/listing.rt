//! Expressions in a list.

ghost use Rattle.std.specs.Prelude.{◌≡◌, ◌≤◌, map};
ghost use Rattle.jr_ast.specs.Expressions.{exprs, view_expr};
ghost use Rattle.jr_reading.specs.Limits.{nesting_limit};
ghost use Rattle.jr_expr_parser.specs.Nesting.{nesting_in};

use jr_ast::Expr;
use sqlite_items::Items;

/// The expressions that were read so far.
#[derive(Drop)]
pub struct Listing {
    pub items: Items<Expr>,
    /// Their nesting under what they belong to.
    pub height: u8,
    ghost tall: { height ≡ nesting_in (exprs (map view_expr items)) },
    ghost low: { height ≤ nesting_limit },
}
