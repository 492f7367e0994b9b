//! What stands before a place of a source.

ghost use Rattle.std.specs.Prelude.{◌≡◌, ◌+◌, [], IfOk};
ghost use Rattle.jr_typing.specs.MadeViews.{view_counts};
ghost use Rattle.jr_typing_rules.specs.Declarations as spec;

use jr_base::Memory;
use sqlite_items::Items;
use std::alloc::Global;

/// How many fields, methods and clauses stand before a place of a source, and which texts are printed before it, in
/// source order. A number past 32 bits is want of memory.
#[derive(Drop)]
pub struct Counts<'a> {
    pub fields: u32,
    /// Constructors among them.
    pub methods: u32,
    /// Those that are judged.
    pub clauses: u32,
    pub texts: Items<&'a [u8]>,
}

impl<'a> Counts<'a> {
    /// Before all. Takes no memory.
    pub fn new(alloc: Global) -> Counts<'a>
        ensures { view_counts result ≡ spec.no_counts }
    {
        Counts {
            fields: 0,
            methods: 0,
            clauses: 0,
            texts: Items::new(alloc),
        }
    }
}

/// A length as a number.
pub fn counted(length: usize) -> Result<u32, Memory>
    ensures { IfOk result (λ n. n ≡ length) }
{
    if length > u32::MAX as usize {
        return Err(Memory);
    }
    Ok(length as u32)
}

/// A number and so many more.
pub fn sum(count: u32, more: u32) -> Result<u32, Memory>
    ensures { IfOk result (λ n. n ≡ count + more) }
{
    count.checked_add(more).ok_or(Memory)
}
