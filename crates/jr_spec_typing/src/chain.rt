//! A primary with what follows it.

ghost use Rattle.std.specs.Prelude.{◌≡◌, IfOk};
ghost use Rattle.jr_program.specs.ClauseViews.{applied, view_expr, view_shape, view_suffix};
ghost use Rattle.jr_spec_typing.specs.Views.{view_chain};

use jr_base::Memory;
use jr_program::{ClauseExpr, ClauseShape, ClauseSuffix};
use sqlite_items::Items;
use std::alloc::Global;

/// A primary with what follows it, from left to right, to which more may be added (JLS 15.8).
#[derive(Drop)]
pub struct Chain {
    pub primary: ClauseExpr,
    pub suffixes: Items<ClauseSuffix>,
}

impl Chain {
    /// A primary that nothing follows.
    pub fn of_shape(alloc: Global, primary: ClauseShape) -> Result<Chain, Memory>
        ensures { IfOk result (λ chain. view_chain chain ≡ view_shape primary) }
    {
        let primary = ClauseExpr::new(alloc, primary)?;
        Ok(Chain {
            primary,
            suffixes: Items::new(alloc),
        })
    }

    /// The same with one more suffix.
    #[tactic(auto, using(jr_program::proofs::ClauseEquations::onto_append, jr_typing::proofs::Lists::map_append))]
    pub fn with(self, suffix: ClauseSuffix) -> Result<Chain, Memory>
        ensures { IfOk result (λ chain. view_chain chain ≡ applied (view_chain self) (view_suffix suffix)) }
    {
        let Chain {
            primary,
            mut suffixes,
        } = self;
        suffixes.push(suffix)?;
        Ok(Chain { primary, suffixes })
    }

    /// The whole as one expression.
    pub fn expr(self, alloc: Global) -> Result<ClauseExpr, Memory>
        ensures { IfOk result (λ expr. view_expr expr ≡ view_chain self) }
    {
        let Chain { primary, suffixes } = self;
        ClauseExpr::suffixed(alloc, primary, suffixes)
    }
}
