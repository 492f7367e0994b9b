//! The names of a source: its classes, their fields, methods and constructors, by name (JLS 6). Its one promise:
//! [`resolve`] gives the names that the rules give, and refuses a source as they do. The rules stand in
//! `specs/Resolution.antt` of `jr_typing_rules`, what look-ups mean in its `specs/Names.antt`; how the tables here are
//! seen as the rules' plain data stands in `specs/Tables.antt` and `specs/Views.antt`.
#![tactic(auto)]

ghost use Rattle.jr_ast.specs.Units.{view_unit};
ghost use Rattle.jr_typing_rules.specs.Resolution as spec;
ghost use Rattle.jr_names.specs.Answered.{Answers};

mod class;
mod counts;
mod fields;
mod heading;
mod known;
mod modifiers;
mod names;
mod numbers;
mod resolved;
mod table;
#[cfg(test)]
mod tests;
mod types;
mod words;

use crate::numbers::Numbers;
use crate::resolved::Resolved;
pub use heading::is_void;
use jr_ast::Unit;
use jr_base::{Fail, Refusal};
pub use modifiers::{is_helper, is_static, is_synchronized, is_volatile};
pub use names::Names;
use std::alloc::Global;
pub use types::{is_reference, is_same};
pub use words::fault_named;

/// The names of a source, or the first rule of names that it breaks, in source order: `Duplicate` where a name is
/// declared twice or means something already, `Unknown` where a type isn't declared; and behind them `NoMain` where
/// there is no `static void main(String[])` (JLS 6, 8, 12.1.4).
#[tactic(auto, unfolding(jr_typing_rules::specs::Resolution::resolve))]
pub fn resolve<'a>(alloc: Global, unit: &'a Unit) -> Result<Names<'a>, Fail>
    ensures { Answers (λ names. names) (spec.resolve (view_unit unit.now)) result }
{
    let classes = unit.classes.as_slice();
    let numbers = Numbers::new(alloc, classes)?;
    let mut resolved = Resolved::new(alloc);
    resolved.add_classes(alloc, &numbers, classes)?;
    match resolved.main {
        Some(main) => Ok(Names::new(numbers, resolved.classes, main)),
        None => Err(Fail::Refused(Refusal::NoMain)),
    }
}
