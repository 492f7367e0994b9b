//! A primary with what follows it.

ghost use Rattle.std.specs.Prelude.{◌≡◌, IfOk};
ghost use Rattle.jr_program.specs.ExprViews.{applied, view_expr, view_shape, view_suffix};
ghost use Rattle.jr_typing.specs.Views.{view_chain};

use jr_base::Memory;
use jr_program::{TypedExpr, TypedShape, TypedSuffix};
use sqlite_items::Items;
use std::alloc::Global;

/// A primary with what follows it, from left to right, to which more may be added (JLS 15.8).
#[derive(Drop)]
pub struct Chain {
    pub primary: TypedExpr,
    pub suffixes: Items<TypedSuffix>,
}

impl Chain {
    /// An expression that nothing follows.
    pub fn of(alloc: Global, primary: TypedExpr) -> Chain
        ensures { view_chain result ≡ view_expr primary }
    {
        Chain {
            primary,
            suffixes: Items::new(alloc),
        }
    }

    /// A primary that nothing follows.
    pub fn of_shape(alloc: Global, primary: TypedShape) -> Result<Chain, Memory>
        ensures { IfOk result (λ chain. view_chain chain ≡ view_shape primary) }
    {
        let primary = TypedExpr::new(alloc, primary)?;
        Ok(Chain::of(alloc, primary))
    }

    /// The same with one more suffix.
    #[tactic(auto, using(jr_program::proofs::ExprEquations::onto_append, crate::proofs::Lists::map_append))]
    pub fn with(self, suffix: TypedSuffix) -> Result<Chain, Memory>
        ensures { IfOk result (λ chain. view_chain chain ≡ applied (view_chain self) (view_suffix suffix)) }
    {
        let Chain {
            primary,
            mut suffixes,
        } = self;
        suffixes.push(suffix)?;
        Ok(Chain { primary, suffixes })
    }

    /// The whole as one expression.
    pub fn expr(self, alloc: Global) -> Result<TypedExpr, Memory>
        ensures { IfOk result (λ expr. view_expr expr ≡ view_chain self) }
    {
        let Chain { primary, suffixes } = self;
        TypedExpr::suffixed(alloc, primary, suffixes)
    }
}
