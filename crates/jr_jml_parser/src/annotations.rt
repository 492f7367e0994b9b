//! The tokens of annotations.

ghost use Rattle.std.specs.Prelude.{◌≡◌, ◌≢◌, true};
ghost use Rattle.jr_reading.specs.Seen as spec;
ghost use Rattle.jr_reading.specs.Steps.{refusal_at};
ghost use Rattle.jr_reading.specs.Within.{Within};
ghost use Rattle.jr_jml_parser.specs.Takes.{Takes};

use jr_base::{Fail, Refusal};
use jr_lexer::{Kind, Tokens};
use jr_reading::View;

/// The kind of the token of an annotation at an index, `End` where none stands there.
pub fn seen(tokens: &Tokens, at: u32) -> Kind
    ensures value { result ≡ spec.seen true tokens.now at }
    ensures within { Within result at }
{
    let view = View { tokens, jml: true };
    view.seen(at)
}

/// Why nothing is read that goes on with the token at an index.
pub fn refusal(tokens: &Tokens, at: u32) -> Refusal
    ensures { result ≡ refusal_at tokens.now at }
{
    let view = View { tokens, jml: true };
    view.refusal(at)
}

/// The index behind a token of an annotation of that kind.
#[tactic(auto, using(crate::proofs::Indexes::within_is))]
pub fn take(tokens: &Tokens, at: u32, kind: Kind) -> Result<u32, Fail>
    requires { kind ≢ Kind.End }
    ensures { Takes kind tokens.now at result }
{
    if seen(tokens, at) == kind {
        Ok(at + 1)
    } else {
        Err(Fail::Refused(refusal(tokens, at)))
    }
}
