//! A class and its members.

ghost use Rattle.std.specs.Prelude.{◌≡◌, [], None};
ghost use Rattle.jr_names.specs.Views.{view_class};

use crate::fields::Fields;
use crate::table::Table;
use jr_typing_rules::MethodEntry;
use std::alloc::Global;

/// A class (JLS 8.1), and its members by name.
#[derive(Drop)]
pub struct ClassEntry<'a> {
    pub extends_thread: bool,
    pub implements_runnable: bool,
    pub fields: Fields<'a>,
    pub methods: Table<'a, MethodEntry>,
    pub constructor: Option<MethodEntry>,
}

impl<'a> ClassEntry<'a> {
    /// A class without members. Takes no memory.
    pub fn new(alloc: Global, extends_thread: bool, implements_runnable: bool) -> ClassEntry<'a>
        ensures { view_class result ≡ record { extends_thread = extends_thread; implements_runnable = implements_runnable; fields = []; methods = []; constructor = None } }
    {
        ClassEntry {
            extends_thread,
            implements_runnable,
            fields: Fields::new(alloc),
            methods: Table::new(alloc),
            constructor: None,
        }
    }
}
