//! The classes of a source (JLS 7.6, 8.1).

ghost use Rattle.std.specs.Prelude.{map, All};
ghost use Rattle.jr_ast.specs.Units.{view_class};
ghost use Rattle.jr_unit_parser.specs.Begins.{ClassBegins};
ghost use Rattle.jr_unit_parser.specs.Finds.{Finds, AllOf};
ghost use Rattle.jr_unit_parser.specs.Grammar.{ClassAt, Imports};
ghost use Rattle.jr_unit_parser.specs.Nesting.{ShallowClass};
ghost use Rattle.jr_unit_parser.specs.Steps as steps;

use crate::head::ClassHead;
use crate::reader::UnitReader;
use jr_ast::Class;
use jr_base::Fail;
use sqlite_items::Items;

impl<'a> UnitReader<'a> {
    /// A class, and the index behind it.
    fn class(&self, first: u32) -> Result<(Class, u32), Fail>
        requires { ClassBegins self.now.tokens.now first }
        ensures { Finds self.now.tokens.now view_class (ClassAt self.now.tokens.now) ShallowClass first result }
    {
        let (head, at) = self.class_head(first)?;
        let (members, end) = self.members(at)?;
        let ClassHead {
            modifiers,
            name,
            extends_thread,
            implements_runnable,
        } = head;
        let place = self.tokens.span(first);
        let class = Class {
            place,
            modifiers,
            name,
            extends_thread,
            implements_runnable,
            members,
        };
        Ok((class, end + 1))
    }

    /// The classes from an index on, up to behind the last token.
    pub fn classes(&self, first: u32) -> Result<(Items<Class>, u32), Fail>
        requires { Imports self.now.tokens.now 0 first }
        ensures { Finds self.now.tokens.now (map view_class) (AllOf (ClassAt self.now.tokens.now) (steps.class_begins self.now.tokens.now)) (All ShallowClass) first result }
    {
        let mut found = Items::new(self.alloc);
        let mut at = first;
        while at < self.tokens.len() {
            let (class, behind) = self.class(at)?;
            found.push(class)?;
            at = behind;
        }
        Ok((found, at))
    }
}
