//! The words that are left out.

ghost use Rattle.std.specs.Prelude.{◌≡◌};
ghost use Rattle.jr_reading.specs.LeftOut as spec;

use jr_lexer::Kind;

/// Whether a word or sign begins a form of Java or JML that is left out: of Java, or of JML where it stands in
/// an annotation.
pub fn left_out(jml: bool, kind: Kind) -> bool
    ensures { result ≡ spec.left_out jml kind }
{
    match kind {
        Kind::Switch
        | Kind::Case
        | Kind::Default
        | Kind::Finally
        | Kind::Instanceof
        | Kind::Interface
        | Kind::Enum
        | Kind::Abstract
        | Kind::Native
        | Kind::Transient
        | Kind::Strictfp
        | Kind::Super
        | Kind::Float
        | Kind::Double
        | Kind::Char
        | Kind::Byte
        | Kind::Short
        | Kind::Goto
        | Kind::Const
        | Kind::Arrow => true,
        Kind::Assert => !jml,
        Kind::Signals
        | Kind::Also
        | Kind::Model
        | Kind::Ghost
        | Kind::Set
        | Kind::Assume
        | Kind::NormalBehavior
        | Kind::ExceptionalBehavior
        | Kind::LoopInvariant
        | Kind::Maintaining
        | Kind::Decreases
        | Kind::Represents
        | Kind::BackslashMax
        | Kind::BackslashSum
        | Kind::BackslashNumOf => jml,
        _ => false,
    }
}
