//! Where an expression of a clause stands.

ghost use Rattle.std.specs.Prelude.{◌≡◌, ◌∷◌, Some, None, cond, length, nat_lt, option_map};
ghost use Rattle.jr_program.specs.ClauseKinds.{deepest_quantifier};
ghost use Rattle.jr_names.specs.Answered.{Answers};
ghost use Rattle.jr_spec_typing.specs.Parts as parts;
ghost use Rattle.jr_spec_typing.specs.Views.{view_quantified, view_stand};
ghost use Rattle.jr_typing_rules.specs.Predicates as spec;

use jr_ast::Name;
use jr_base::{Fail, Refusal, Span};
use jr_typing::{Scope, not_here};
use jr_typing_rules::ValueType;

/// The variables of the quantifiers around, of which there are at most two.
#[derive(Clone, Copy)]
pub enum Quantified<'q> {
    Nothing,
    One(&'q [u8]),
    Two { outer: &'q [u8], inner: &'q [u8] },
}

/// Where an expression of a clause stands (JML Reference Manual, "Predicates and Specification Expressions").
#[derive(Clone, Copy)]
pub struct Stand<'a, 'b, 'v, 'q> {
    /// Names, the own class, whether there is no `this`, and the variables, each by its place in the environment.
    pub scope: Scope<'a, 'b, 'v>,
    /// `\result` may stand here, and is of that type.
    pub result: Option<ValueType>,
    /// `\old` may stand here.
    pub looks_back: bool,
    pub is_in_old: bool,
    pub quantified: Quantified<'q>,
}

impl<'q> Quantified<'q> {
    /// How many quantifiers stand between here and the one whose variable has that name.
    fn depth_of(self, name: &[u8]) -> Option<u32>
        ensures { result ≡ spec.depth_of 0 (view_quantified self.entry) name.now }
    {
        match self {
            Quantified::Nothing => None,
            Quantified::One(only) => {
                if name == only {
                    return Some(0);
                }
                None
            }
            Quantified::Two { outer, inner } => {
                if name == inner {
                    return Some(0);
                }
                if name == outer {
                    return Some(1);
                }
                None
            }
        }
    }

    /// The same with one more quantifier inside; none where there are two already.
    fn with(self, name: &'q [u8]) -> Option<Quantified<'q>>
        ensures { option_map view_quantified result ≡ cond (nat_lt (length (view_quantified self.entry)) deepest_quantifier) (Some (name.entry.now ∷ view_quantified self.entry)) None }
    {
        match self {
            Quantified::Nothing => Some(Quantified::One(name)),
            Quantified::One(outer) => Some(Quantified::Two { outer, inner: name }),
            Quantified::Two { .. } => None,
        }
    }
}

impl<'a, 'b, 'v, 'q> Stand<'a, 'b, 'v, 'q> {
    /// How many quantifiers stand between here and the one whose variable has that name.
    pub fn depth_of(&self, name: &[u8]) -> Option<u32>
        ensures { result ≡ spec.depth_of 0 (view_stand self.now).quantified name.now }
    {
        self.quantified.depth_of(name)
    }

    /// Whether no other variable has that name.
    fn is_new(&self, name: &[u8]) -> bool
        ensures { result ≡ spec.is_new (view_stand self.now) name.now }
    {
        self.quantified.depth_of(name).is_none() && self.scope.variable(name).is_none()
    }

    /// Inside of a quantifier that stands there, of that variable. Refused are a quantifier in two others, and a name that
    /// another variable has.
    pub fn inside(&self, at: Span, variable: &'q Name) -> Result<Stand<'a, 'b, 'v, 'q>, Fail>
        ensures { Answers view_stand (parts.inside (view_stand self.now) at variable.now) result }
    {
        let text = variable.text.as_slice();
        let Some(quantified) = self.quantified.with(text) else {
            return Err(not_here(at));
        };
        if !self.is_new(text) {
            return Err(Fail::Refused(Refusal::Duplicate(variable.place)));
        }
        Ok(Stand {
            quantified,
            ..*self
        })
    }
}
