//! What kinds of token there are.

/// The kind of a token: a name, a literal, a keyword or a sign.
#[derive(Clone, Copy, Debug, PartialEq, Eq)]
pub enum Kind {
    /// No token: what stands behind the last one.
    End,
    /// A name (JLS 3.8).
    Name,
    /// An integer literal, of either type (JLS 3.10.1).
    Integer,
    /// A string literal (JLS 3.10.5).
    Text,
    // Words with a backslash, of JML.
    /// `\result`.
    BackslashResult,
    /// `\old`.
    BackslashOld,
    /// `\lockset`.
    BackslashLockset,
    /// `\forall`.
    BackslashForall,
    /// `\exists`.
    BackslashExists,
    /// `\max`.
    BackslashMax,
    /// `\sum`.
    BackslashSum,
    /// `\num_of`.
    BackslashNumOf,
    /// Any other word with a backslash.
    BackslashOther,
    // Keywords of Java.
    Package,
    Import,
    Class,
    Extends,
    Implements,
    Public,
    Private,
    Protected,
    Static,
    Final,
    Synchronized,
    Volatile,
    Int,
    Boolean,
    Void,
    Throws,
    If,
    Else,
    While,
    Do,
    For,
    Return,
    Break,
    Continue,
    Throw,
    Try,
    Catch,
    New,
    This,
    Null,
    True,
    False,
    Switch,
    Case,
    Default,
    Finally,
    Instanceof,
    Interface,
    Enum,
    Abstract,
    Native,
    Transient,
    Strictfp,
    Super,
    Float,
    Double,
    Char,
    Byte,
    Short,
    Long,
    Assert,
    Goto,
    Const,
    // Keywords of JML.
    Pure,
    Helper,
    Atomic,
    Nullable,
    NonNull,
    SpecPublic,
    SpecProtected,
    SpecSafeMath,
    SpecJavaMath,
    Requires,
    Ensures,
    When,
    Locks,
    Assignable,
    Modifies,
    Invariant,
    Constraint,
    MonitorsFor,
    Signals,
    Also,
    Model,
    Ghost,
    Set,
    Assume,
    NormalBehavior,
    ExceptionalBehavior,
    LoopInvariant,
    Maintaining,
    Decreases,
    Represents,
    // Signs.
    /// `.`.
    Dot,
    /// `;`.
    Semicolon,
    /// `,`.
    Comma,
    /// `(`.
    OpenParen,
    /// `)`.
    CloseParen,
    /// `[`.
    OpenBracket,
    /// `]`.
    CloseBracket,
    /// `{`.
    OpenBrace,
    /// `}`.
    CloseBrace,
    /// `@`.
    At,
    /// `?`.
    Question,
    /// `:`.
    Colon,
    /// `~`.
    Tilde,
    /// `==>` of JML.
    Implies,
    /// `==`.
    EqualEqual,
    /// `=`.
    Equal,
    /// `++`.
    PlusPlus,
    /// `+=`.
    PlusEqual,
    /// `+`.
    Plus,
    /// `--`.
    MinusMinus,
    /// `-=`.
    MinusEqual,
    /// `->`.
    Arrow,
    /// `-`.
    Minus,
    /// `*=`.
    StarEqual,
    /// `*`.
    Star,
    /// `/=`.
    SlashEqual,
    /// `/`.
    Slash,
    /// `%=`.
    PercentEqual,
    /// `%`.
    Percent,
    /// `^=`.
    CaretEqual,
    /// `^`.
    Caret,
    /// `&&`.
    AndAnd,
    /// `&=`.
    AndEqual,
    /// `&`.
    And,
    /// `||`.
    OrOr,
    /// `|=`.
    OrEqual,
    /// `|`.
    Or,
    /// `!=`.
    NotEqual,
    /// `!`.
    Not,
    /// `<=!=>` of JML.
    NotEquivalent,
    /// `<==>` of JML.
    Equivalent,
    /// `<==` of JML.
    ImpliedBy,
    /// `<<=`.
    ShiftLeftEqual,
    /// `<<`.
    ShiftLeft,
    /// `<=`.
    LessEqual,
    /// `<`.
    Less,
    /// `>>>=`.
    ShiftRightUnsignedEqual,
    /// `>>>`.
    ShiftRightUnsigned,
    /// `>>=`.
    ShiftRightEqual,
    /// `>>`.
    ShiftRight,
    /// `>=`.
    GreaterEqual,
    /// `>`.
    Greater,
}

/// The kinds of the keywords, in the order of the rows of their table.
pub static KEYWORD_KINDS: [Kind; 83] = [
    Kind::Package,
    Kind::Import,
    Kind::Class,
    Kind::Extends,
    Kind::Implements,
    Kind::Public,
    Kind::Private,
    Kind::Protected,
    Kind::Static,
    Kind::Final,
    Kind::Synchronized,
    Kind::Volatile,
    Kind::Int,
    Kind::Boolean,
    Kind::Void,
    Kind::Throws,
    Kind::If,
    Kind::Else,
    Kind::While,
    Kind::Do,
    Kind::For,
    Kind::Return,
    Kind::Break,
    Kind::Continue,
    Kind::Throw,
    Kind::Try,
    Kind::Catch,
    Kind::New,
    Kind::This,
    Kind::Null,
    Kind::True,
    Kind::False,
    Kind::Switch,
    Kind::Case,
    Kind::Default,
    Kind::Finally,
    Kind::Instanceof,
    Kind::Interface,
    Kind::Enum,
    Kind::Abstract,
    Kind::Native,
    Kind::Transient,
    Kind::Strictfp,
    Kind::Super,
    Kind::Float,
    Kind::Double,
    Kind::Char,
    Kind::Byte,
    Kind::Short,
    Kind::Long,
    Kind::Assert,
    Kind::Goto,
    Kind::Const,
    Kind::Pure,
    Kind::Helper,
    Kind::Atomic,
    Kind::Nullable,
    Kind::NonNull,
    Kind::SpecPublic,
    Kind::SpecProtected,
    Kind::SpecSafeMath,
    Kind::SpecJavaMath,
    Kind::Requires,
    Kind::Ensures,
    Kind::When,
    Kind::Locks,
    Kind::Assignable,
    Kind::Modifies,
    Kind::Invariant,
    Kind::Constraint,
    Kind::MonitorsFor,
    Kind::Signals,
    Kind::Also,
    Kind::Model,
    Kind::Ghost,
    Kind::Set,
    Kind::Assume,
    Kind::NormalBehavior,
    Kind::ExceptionalBehavior,
    Kind::LoopInvariant,
    Kind::Maintaining,
    Kind::Decreases,
    Kind::Represents,
];
