//! Which expressions are statements.

ghost use Rattle.std.specs.Prelude.{◌≡◌};
ghost use Rattle.jr_base.specs.declared.number.Span.{Span};
ghost use Rattle.jr_ast.specs.Expressions.{Expr as Plain, applied, view_expr, view_shape, view_suffix};
ghost use Rattle.jr_stmt_parser.specs.Grammar as grammar;

use jr_ast::{Expr, Prefix, Shape, Suffix};

/// Whether it is an assignment, an increment or decrement, a call or a `new` (JLS 14.8).
pub fn has_effect(expr: &Expr) -> bool
    ensures { result ≡ grammar.has_effect (view_expr expr.now) }
{
    shape_has_effect(expr.shape.get())
}

fn shape_has_effect(shape: &Shape) -> bool
    ensures { (at : Span) → result ≡ grammar.has_effect (view_shape shape.now at) }
{
    match shape {
        Shape::Assignment(_, _, _)
        | Shape::Postfix(_, _)
        | Shape::Call(_, _)
        | Shape::NewObject(_, _)
        | Shape::NewArray(_, _) => true,
        Shape::Prefix(Prefix::Increment | Prefix::Decrement, _) => true,
        Shape::Suffixed(primary, suffixes) => match suffixes.as_slice() {
            [] => shape_has_effect(primary.get()),
            [.., last] => is_call(last),
        },
        _ => false,
    }
}

fn is_call(suffix: &Suffix) -> bool
    ensures { (at : Span) (e : Plain) → result ≡ grammar.has_effect (applied at e (view_suffix suffix.now)) }
{
    matches!(suffix, Suffix::Invocation(_, _))
}
