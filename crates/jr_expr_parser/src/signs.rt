//! The signs and words that expressions are made of, where they stand.

ghost use Rattle.std.specs.Prelude.{◌≡◌, ◌<◌, IsTrue, IfSome, IfOk};
ghost use Rattle.jr_lexer.specs.Answers.{Answers as Finds};
ghost use Rattle.jr_expr_parser.specs.Reader as reader;

use crate::operators::{
    assignment_of, bound_of, extends, infix_of, postfix_of, prefix_of, quantifier_of,
};
use jr_ast::{AssignOp, Bound, Infix, Postfix, Prefix, Quantifier};
use jr_base::Fail;
use jr_lexer::Kind;
use jr_reading::View;

/// The name at an index, where it is that of another index.
#[tactic(auto, unfolding(crate::specs::Reader::same_name))]
pub fn same_name(view: &View<'_>, variable: u32, at: u32) -> Result<(), Fail>
    ensures value { Finds (reader.same_name view.now.jml view.now.tokens.now variable at) result }
    ensures within { IfOk result (λ _. at < 1048576) }
{
    view.expect(at, Kind::Name)?;
    view.expect_text(at, view.tokens.text(variable))
}

#[tactic(auto, unfolding(crate::specs::Reader::prefix))]
pub fn prefix(view: &View<'_>, at: u32) -> Option<Prefix>
    ensures value { result ≡ reader.prefix view.now.jml view.now.tokens.now at }
    ensures within { IfSome result (λ _. at < 1048576) }
{
    prefix_of(view.jml, view.seen(at))
}

#[tactic(auto, unfolding(crate::specs::Reader::postfix))]
pub fn postfix(view: &View<'_>, at: u32) -> Option<Postfix>
    ensures value { result ≡ reader.postfix view.now.jml view.now.tokens.now at }
    ensures within { IfSome result (λ _. at < 1048576) }
{
    postfix_of(view.jml, view.seen(at))
}

#[tactic(auto, unfolding(crate::specs::Reader::assignment))]
pub fn assignment(view: &View<'_>, at: u32) -> Option<AssignOp>
    ensures value { result ≡ reader.assignment view.now.jml view.now.tokens.now at }
    ensures within { IfSome result (λ _. at < 1048576) }
{
    assignment_of(view.jml, view.seen(at))
}

/// The operator of a level at an index.
#[tactic(auto, unfolding(crate::specs::Reader::operator))]
pub fn operator(view: &View<'_>, level: u8, at: u32) -> Option<Infix>
    ensures value { result ≡ reader.operator view.now.jml view.now.tokens.now level at }
    ensures within { IfSome result (λ _. at < 1048576) }
{
    match infix_of(view.jml, view.seen(at)) {
        Some((its, op)) if its == level => Some(op),
        _ => None,
    }
}

/// A bound's sign.
#[tactic(auto, unfolding(crate::specs::Reader::bound))]
pub fn bound(view: &View<'_>, at: u32) -> Result<Bound, Fail>
    ensures value { Finds (reader.bound view.now.jml view.now.tokens.now at) result }
    ensures within { IfOk result (λ _. at < 1048576) }
{
    match bound_of(view.seen(at)) {
        None => Err(Fail::Refused(view.refusal(at))),
        Some(bound) => Ok(bound),
    }
}

/// The signs of `< x && x <`, and the index behind.
#[tactic(auto, unfolding(crate::specs::Reader::between))]
pub fn between(view: &View<'_>, variable: u32, at: u32) -> Result<((Bound, Bound), u32), Fail>
    ensures { Finds (reader.between view.now.jml view.now.tokens.now variable at) result }
{
    let low = bound(view, at)?;
    same_name(view, variable, at + 1)?;
    view.expect(at + 2, Kind::AndAnd)?;
    same_name(view, variable, at + 3)?;
    let high = bound(view, at + 4)?;
    Ok(((low, high), at + 5))
}

/// Whether a `-` stands there and the big literal of a type, which is itself its operand.
#[tactic(auto, unfolding(crate::specs::Reader::is_least))]
pub fn is_least(view: &View<'_>, at: u32) -> bool
    ensures value { result ≡ reader.is_least view.now.jml view.now.tokens.now at }
    ensures within { IsTrue result → at < 1048576 }
{
    view.sees(at, Kind::Minus)
        && view.sees(at + 1, Kind::Integer)
        && !extends(view.jml, view.seen(at + 2))
        && view.literal(at + 1).number == view.big(at + 1)
}

/// The quantifier behind a bracket.
#[tactic(auto, unfolding(crate::specs::Reader::quantifier))]
pub fn quantifier(view: &View<'_>, at: u32) -> Option<Quantifier>
    ensures { result ≡ reader.quantifier view.now.jml view.now.tokens.now at }
{
    if !view.jml {
        return None;
    }
    quantifier_of(view.seen(at))
}

/// `.class`.
#[tactic(auto, unfolding(crate::specs::Reader::is_class))]
pub fn is_class(view: &View<'_>, at: u32) -> bool
    ensures value { result ≡ reader.is_class view.now.jml view.now.tokens.now at }
    ensures within { IsTrue result → at < 1048576 }
{
    view.sees(at, Kind::Dot) && view.sees(at + 1, Kind::Class)
}

/// The opening bracket of a call, of code alone.
#[tactic(auto, unfolding(crate::specs::Reader::is_call))]
pub fn is_call(view: &View<'_>, at: u32) -> bool
    ensures value { result ≡ reader.is_call view.now.jml view.now.tokens.now at }
    ensures within { IsTrue result → at < 1048576 }
{
    !view.jml && view.sees(at, Kind::OpenParen)
}

/// `.has(`.
#[tactic(auto, unfolding(crate::specs::Reader::has))]
pub fn has(view: &View<'_>, at: u32) -> Result<(), Fail>
    requires { at < 1048577 }
    ensures value { Finds (reader.has view.now.jml view.now.tokens.now at) result }
    ensures within { IfOk result (λ _. at < 1048576) }
{
    view.expect(at, Kind::Dot)?;
    view.expect(at + 1, Kind::Name)?;
    view.expect_text(at + 1, b"has")?;
    view.expect(at + 2, Kind::OpenParen)
}

/// Whether the name behind a dot is `print`, with `(` and a string behind it.
#[tactic(auto, unfolding(crate::specs::Reader::prints_string))]
pub fn prints_string(view: &View<'_>, at: u32) -> bool
    requires { at < 1048576 }
    ensures { result ≡ reader.prints_string view.now.jml view.now.tokens.now at }
{
    view.sees(at + 3, Kind::Text) && view.tokens.text(at + 1) == b"print".as_slice()
}
