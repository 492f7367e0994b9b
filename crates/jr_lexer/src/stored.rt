//! A token without its text.

use crate::kind::Kind;
use crate::number::Number;
use jr_base::Span;

/// A token, whose text stands among all texts from `start` on.
#[derive(Clone, Copy)]
pub(crate) struct Stored {
    pub kind: Kind,
    pub jml: bool,
    pub number: Number,
    pub span: Span,
    pub start: usize,
    pub len: u32,
}
