//! The tables of keywords, and the row of a word.

ghost use Rattle.std.specs.Prelude.{ℕ, ◌≡◌, ◌≢◌, ◌<◌, true, length, map, slice_get, Some, AllPairs, IfNone, IfSome};
ghost use Rattle.jr_ops.specs.Keywords as spec;

/// A table of words, whose rows are numbered from 0.
#[derive(Drop)]
pub struct OpTable<const N: usize> {
    pub words: [&'static [u8]; N],
}

// How many of the keywords are Java's own.
const JAVA_COUNT: usize = 53;

/// The keywords of Java (JLS 3.9) but `_`, with its literals `true`, `false` and `null`. Behind them the
/// words that are keywords in annotations alone (JML Reference Manual).
pub static KEYWORDS: OpTable<83> = OpTable {
    words: [
        b"package",
        b"import",
        b"class",
        b"extends",
        b"implements",
        b"public",
        b"private",
        b"protected",
        b"static",
        b"final",
        b"synchronized",
        b"volatile",
        b"int",
        b"boolean",
        b"void",
        b"throws",
        b"if",
        b"else",
        b"while",
        b"do",
        b"for",
        b"return",
        b"break",
        b"continue",
        b"throw",
        b"try",
        b"catch",
        b"new",
        b"this",
        b"null",
        b"true",
        b"false",
        b"switch",
        b"case",
        b"default",
        b"finally",
        b"instanceof",
        b"interface",
        b"enum",
        b"abstract",
        b"native",
        b"transient",
        b"strictfp",
        b"super",
        b"float",
        b"double",
        b"char",
        b"byte",
        b"short",
        b"long",
        b"assert",
        b"goto",
        b"const",
        b"pure",
        b"helper",
        b"atomic",
        b"nullable",
        b"non_null",
        b"spec_public",
        b"spec_protected",
        b"spec_safe_math",
        b"spec_java_math",
        b"requires",
        b"ensures",
        b"when",
        b"locks",
        b"assignable",
        b"modifies",
        b"invariant",
        b"constraint",
        b"monitors_for",
        b"signals",
        b"also",
        b"model",
        b"ghost",
        b"set",
        b"assume",
        b"normal_behavior",
        b"exceptional_behavior",
        b"loop_invariant",
        b"maintaining",
        b"decreases",
        b"represents",
    ],
};

/// The row of a word in `KEYWORDS`, where it is a keyword: in annotations, where `jml` is true, one of
/// Java or of JML, elsewhere one of Java.
pub fn keyword(text: &[u8], jml: bool) -> Option<u8>
    ensures value { result ≡ spec.keyword_row text.now jml }
    ensures found { IfSome result (λ row. slice_get (spec.keywords jml) row ≡ Some text.now) }
    ensures none { IfNone result ((row : ℕ) → slice_get (spec.keywords jml) row ≢ Some text.now) }
{
    row_of(words_of(jml), text)
}

fn words_of(jml: bool) -> &'static [&'static [u8]]
    ensures value { map (λ w. w.now) result.now ≡ spec.keywords jml }
    ensures within { length result.now < 256 }
{
    if jml {
        &KEYWORDS.words
    } else {
        &KEYWORDS.words[..JAVA_COUNT]
    }
}

fn row_of(words: &[&[u8]], text: &[u8]) -> Option<u8>
    requires { length words.now < 256 }
    ensures { result ≡ spec.row_from 0 (map (λ w. w.now) words.now) text.now }
{
    for (row, word) in words.iter().enumerate() {
        if *word == text {
            return Some(row as u8);
        }
    }
    None
}

/// No word stands twice in the table.
pub fn words_differ()
    ensures { AllPairs (λ x y. x ≢ y) (spec.keywords true) }
{}
