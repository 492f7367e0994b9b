//! Whether expressions of code make no thread.

ghost use Rattle.std.specs.Prelude.{◌≡◌, map};
ghost use Rattle.std.specs.List.{list_all};
ghost use Rattle.jr_program.specs.ExprViews.{exprs, view_expr, view_shape, view_suffix, view_variable};
ghost use Rattle.jr_built.specs.Built.{expr_is_built, exprs_are_built, variable_is_built};
ghost use Rattle.jr_built.specs.Chains.{suffix_is_built};

use jr_program::{TypedExpr, TypedShape, TypedSuffix, TypedVariable};

/// Whether no `new Thread(..)` stands in an expression.
#[cycle(built)]
#[tactic(auto, using(crate::proofs::Chains::onto_built, jr_program::proofs::ExprEquations::view_suffixed, jr_program::proofs::ExprEquations::view_call_static, jr_program::proofs::ExprEquations::view_new_object, jr_program::proofs::ExprEquations::view_invocation))]
pub fn is_expr_built(expr: &TypedExpr) -> bool
    ensures { result ≡ expr_is_built (view_expr expr.now) }
{
    is_shape_built(expr.shape.get())
}

#[cycle(built)]
#[tactic(auto, using(crate::proofs::Chains::onto_built, jr_program::proofs::ExprEquations::view_suffixed, jr_program::proofs::ExprEquations::view_call_static, jr_program::proofs::ExprEquations::view_new_object, jr_program::proofs::ExprEquations::view_invocation))]
fn is_shape_built(shape: &TypedShape) -> bool
    ensures { result ≡ expr_is_built (view_shape shape.now) }
{
    match shape {
        TypedShape::Int(_)
        | TypedShape::Long(_)
        | TypedShape::Truth(_)
        | TypedShape::Null
        | TypedShape::This
        | TypedShape::ClassObject(_)
        | TypedShape::Local(_)
        | TypedShape::StaticField(_)
        | TypedShape::NewPlain => true,
        TypedShape::NewThread(_) => false,
        TypedShape::CallStatic(_, arguments) | TypedShape::NewObject(_, arguments) => {
            are_exprs_built(arguments.as_slice())
        }
        TypedShape::NewArray(_, e) | TypedShape::Convert(_, e) | TypedShape::Unary(_, e) => {
            is_expr_built(e)
        }
        TypedShape::Suffixed(e, suffixes) => {
            is_expr_built(e) && are_suffixes_built(suffixes.as_slice())
        }
        TypedShape::Binary(_, a, b) | TypedShape::And(a, b) | TypedShape::Or(a, b) => {
            is_expr_built(a) && is_expr_built(b)
        }
        TypedShape::Choice(c, a, b) => is_expr_built(c) && is_expr_built(a) && is_expr_built(b),
        TypedShape::Assign(v, e) | TypedShape::Compound(_, _, v, e) => {
            is_variable_built(v) && is_expr_built(e)
        }
        TypedShape::PrefixIncrement(_, v, _) | TypedShape::PostfixIncrement(_, v, _) => {
            is_variable_built(v)
        }
    }
}

#[cycle(built)]
#[tactic(auto, using(crate::proofs::Chains::onto_built, jr_program::proofs::ExprEquations::view_suffixed, jr_program::proofs::ExprEquations::view_call_static, jr_program::proofs::ExprEquations::view_new_object, jr_program::proofs::ExprEquations::view_invocation))]
fn is_variable_built(variable: &TypedVariable) -> bool
    ensures { result ≡ variable_is_built (view_variable variable.now) }
{
    match variable {
        TypedVariable::OfMethod(_) | TypedVariable::OfClass(_) => true,
        TypedVariable::OfObject(e, _) => is_expr_built(e),
        TypedVariable::OfArray(_, a, i) => is_expr_built(a) && is_expr_built(i),
    }
}

#[cycle(built)]
#[tactic(auto, using(crate::proofs::Chains::onto_built, jr_program::proofs::ExprEquations::view_suffixed, jr_program::proofs::ExprEquations::view_call_static, jr_program::proofs::ExprEquations::view_new_object, jr_program::proofs::ExprEquations::view_invocation))]
fn are_suffixes_built(all: &[TypedSuffix]) -> bool
    ensures { result ≡ list_all suffix_is_built (map view_suffix all.now) }
{
    for suffix in all {
        if !is_suffix_built(suffix) {
            return false;
        }
    }
    true
}

#[cycle(built)]
#[tactic(auto, using(crate::proofs::Chains::onto_built, jr_program::proofs::ExprEquations::view_suffixed, jr_program::proofs::ExprEquations::view_call_static, jr_program::proofs::ExprEquations::view_new_object, jr_program::proofs::ExprEquations::view_invocation))]
fn is_suffix_built(suffix: &TypedSuffix) -> bool
    ensures { result ≡ suffix_is_built (view_suffix suffix.now) }
{
    match suffix {
        TypedSuffix::Field(_) | TypedSuffix::Length => true,
        TypedSuffix::Invocation(_, arguments) => are_exprs_built(arguments.as_slice()),
        TypedSuffix::Element(_, e) => is_expr_built(e),
    }
}

/// The same of arguments.
#[cycle(built)]
#[tactic(auto, using(crate::proofs::Chains::onto_built, jr_program::proofs::ExprEquations::view_suffixed, jr_program::proofs::ExprEquations::view_call_static, jr_program::proofs::ExprEquations::view_new_object, jr_program::proofs::ExprEquations::view_invocation))]
pub fn are_exprs_built(all: &[TypedExpr]) -> bool
    ensures { result ≡ exprs_are_built (exprs (map view_expr all.now)) }
{
    for expr in all {
        if !is_expr_built(expr) {
            return false;
        }
    }
    true
}
