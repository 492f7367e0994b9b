//! What was read, with how deep it nests.

ghost use Rattle.std.specs.Prelude.{◌≡◌, ◌≤◌};
ghost use Rattle.jr_ast.specs.Expressions.{view_expr};
ghost use Rattle.jr_reading.specs.Limits.{nesting_limit};
ghost use Rattle.jr_expr_parser.specs.Nesting.{nesting, is_implied_by};

use jr_ast::Expr;

/// An expression.
#[derive(Drop)]
pub struct Read {
    pub tree: Expr,
    /// Its nesting.
    pub height: u8,
    /// Whether it is a chain of `<==` without brackets.
    pub implied_by: bool,
    ghost tall: { height ≡ nesting (view_expr tree) },
    ghost low: { height ≤ nesting_limit },
    ghost chain: { implied_by ≡ is_implied_by (view_expr tree) },
}
