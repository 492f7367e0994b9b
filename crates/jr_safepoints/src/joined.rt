//! What is due at one site, piece by piece.

ghost use Rattle.std.specs.Prelude.{◌≡◌};
ghost use Rattle.jr_names.specs.Answered.{Answers};
ghost use Rattle.jr_safepoints.specs.Few.{few, joined};

use jr_base::{ClauseId, Fail, Refusal, Span};
use jr_program::DueList;
use sqlite_items::Items;
use std::alloc::Global;

/// How many clauses may be due at one site.
const MOST_DUE: usize = 16;

/// The pieces one after the other, as what is due at a site. Refused as `TooManyClauses`, at that place, where there are
/// more than 16: no list grows past that.
#[tactic(auto, using(crate::proofs::Joining::piece_over, crate::proofs::Joining::piece_next, crate::proofs::Joining::no_piece_left))]
pub fn due(alloc: Global, at: Span, pieces: &[&[ClauseId]]) -> Result<DueList, Fail>
    ensures { Answers (λ due. due) (few at (joined pieces.now)) result }
{
    let mut numbers: Items<ClauseId> = Items::new(alloc);
    for piece in pieces {
        if piece.len() > MOST_DUE - numbers.len() {
            return Err(Fail::Refused(Refusal::TooManyClauses(at)));
        }
        numbers.append(Items::from_slice(alloc, piece)?)?;
    }
    Ok(DueList::new(numbers))
}
