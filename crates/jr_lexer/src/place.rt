//! Where a piece of a source is read.

ghost use Rattle.std.specs.Prelude.{◌+◌, ◌≤◌, length};

/// A place in a source.
#[derive(Clone, Copy)]
pub(crate) struct Place<'a> {
    /// The bytes from there to the end of the text that is read.
    pub text: &'a [u8],
    /// How many bytes of the source stand before it.
    pub at: usize,
    /// Whether the text is that of an annotation.
    pub jml: bool,
    ghost within: { at + length text.now ≤ 1048576 },
}
