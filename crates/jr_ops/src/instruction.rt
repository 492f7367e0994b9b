//! The rows of stack code: what each takes and gives.

ghost use Rattle.std.specs.Prelude.{◌≡◌, ◌<◌, ◌≤◌, ◌≢◌, ◌-◌, AllPairs, Some, length, map, slice_get};
ghost use Rattle.jr_ops.specs.Instructions as spec;

/// What stands in a place of what a row takes or gives. A letter from X to Z is any kind, the same letter the
/// same kind.
#[derive(Clone, Copy, Debug, PartialEq, Eq)]
pub enum RowKind {
    /// The place is unused.
    Nothing,
    /// An `int`.
    I,
    /// A `long`.
    J,
    /// A `boolean`.
    B,
    /// A reference.
    R,
    X,
    Y,
    Z,
    /// As many values as the called method has formals, the last one topmost.
    Arguments,
    /// The result of the called method, if it has one.
    Outcome,
    /// As many values as are printed, the last one topmost.
    PartValues,
}

/// What a row's argument is: a number, a place in a list of the code, or a place in the method.
#[derive(Clone, Copy, Debug, PartialEq, Eq)]
pub enum RowArg {
    /// The row has none.
    Nothing,
    /// The 32 bits of an `int`.
    Number,
    /// A place among the numbers of type `long`.
    LongPlace,
    /// A place among the classes.
    Class,
    /// A local of the method.
    Local,
    /// An instruction of the method.
    Target,
    /// A field.
    Field,
    /// A place among the things that are made.
    Made,
    /// A place among the kinds of elements.
    Element,
    /// A method.
    Method,
    /// A place among the asserts.
    Asserted,
    /// A place among the prints.
    Printed,
    /// A place among the exceptions.
    Thrown,
}

/// A row: its name in listings, what it takes from the stack and gives to it, the topmost last, and what
/// its argument is. Behind the places that are used, all others are `Nothing`.
#[derive(Clone, Copy)]
pub struct OpRow {
    pub name: &'static str,
    pub takes: [RowKind; 3],
    pub gives: [RowKind; 4],
    pub arg: RowArg,
}

/// How many rows there are. They are numbered from 1.
pub const ROW_COUNT: u8 = 93;

macro_rules! three {
    ([]) => {
        [RowKind::Nothing, RowKind::Nothing, RowKind::Nothing]
    };
    ([$a:ident]) => {
        [RowKind::$a, RowKind::Nothing, RowKind::Nothing]
    };
    ([$a:ident $b:ident]) => {
        [RowKind::$a, RowKind::$b, RowKind::Nothing]
    };
    ([$a:ident $b:ident $c:ident]) => {
        [RowKind::$a, RowKind::$b, RowKind::$c]
    };
}

macro_rules! four {
    ([]) => {
        [RowKind::Nothing, RowKind::Nothing, RowKind::Nothing, RowKind::Nothing]
    };
    ([$a:ident]) => {
        [RowKind::$a, RowKind::Nothing, RowKind::Nothing, RowKind::Nothing]
    };
    ([$a:ident $b:ident]) => {
        [RowKind::$a, RowKind::$b, RowKind::Nothing, RowKind::Nothing]
    };
    ([$a:ident $b:ident $c:ident]) => {
        [RowKind::$a, RowKind::$b, RowKind::$c, RowKind::Nothing]
    };
    ([$a:ident $b:ident $c:ident $d:ident]) => {
        [RowKind::$a, RowKind::$b, RowKind::$c, RowKind::$d]
    };
}

// The row of a number, from a part of the table.
macro_rules! row_of_part {
    ($code:ident $($number:literal $name:literal $takes:tt $gives:tt $arg:ident),*) => {
        match $code {
            $($number => OpRow { name: $name, takes: three!($takes), gives: four!($gives), arg: RowArg::$arg },)*
            _ => unreachable!(),
        }
    };
}

/// The row of a number.
pub fn effect(code: u8) -> OpRow
    requires first { 1 ≤ code }
    requires last { code ≤ ROW_COUNT }
    ensures { slice_get spec.instruction_rows (code - 1) ≡ Some (spec.row_of result) }
{
    if code <= LAST_OF_OPERATORS {
        operator_row(code)
    } else if code <= LAST_OF_ACTIONS {
        action_row(code)
    } else {
        long_row(code)
    }
}

// The table's parts: operands and operators; what goes on elsewhere, or is an action; longs and timed waits.
const LAST_OF_OPERATORS: u8 = 39;

const LAST_OF_ACTIONS: u8 = 70;

#[tactic(auto, unfolding(crate::specs::Instructions::instruction_rows))]
fn operator_row(code: u8) -> OpRow
    requires first { 1 ≤ code }
    requires last { code ≤ LAST_OF_OPERATORS }
    ensures { slice_get spec.instruction_rows (code - 1) ≡ Some (spec.row_of result) }
{
    row_of_part!(code
        1 "int" [] [I] Number,
        2 "true" [] [B] Nothing,
        3 "false" [] [B] Nothing,
        4 "null" [] [R] Nothing,
        5 "class" [] [R] Class,
        6 "load" [] [X] Local,
        7 "store" [X] [] Local,
        8 "pop" [X] [] Nothing,
        9 "dup" [X] [X X] Nothing,
        10 "dup2" [X Y] [X Y X Y] Nothing,
        11 "dupx1" [X Y] [Y X Y] Nothing,
        12 "dupx2" [X Y Z] [Z X Y Z] Nothing,
        13 "add" [I I] [I] Nothing,
        14 "sub" [I I] [I] Nothing,
        15 "mul" [I I] [I] Nothing,
        16 "div" [I I] [I] Nothing,
        17 "rem" [I I] [I] Nothing,
        18 "neg" [I] [I] Nothing,
        19 "inv" [I] [I] Nothing,
        20 "and" [I I] [I] Nothing,
        21 "or" [I I] [I] Nothing,
        22 "xor" [I I] [I] Nothing,
        23 "shl" [I I] [I] Nothing,
        24 "shr" [I I] [I] Nothing,
        25 "ushr" [I I] [I] Nothing,
        26 "not" [B] [B] Nothing,
        27 "band" [B B] [B] Nothing,
        28 "bor" [B B] [B] Nothing,
        29 "bxor" [B B] [B] Nothing,
        30 "lt" [I I] [B] Nothing,
        31 "le" [I I] [B] Nothing,
        32 "gt" [I I] [B] Nothing,
        33 "ge" [I I] [B] Nothing,
        34 "eq" [I I] [B] Nothing,
        35 "ne" [I I] [B] Nothing,
        36 "beq" [B B] [B] Nothing,
        37 "bne" [B B] [B] Nothing,
        38 "req" [R R] [B] Nothing,
        39 "rne" [R R] [B] Nothing
    )
}

#[tactic(auto, unfolding(crate::specs::Instructions::instruction_rows))]
fn action_row(code: u8) -> OpRow
    requires first { LAST_OF_OPERATORS < code }
    requires last { code ≤ LAST_OF_ACTIONS }
    ensures { slice_get spec.instruction_rows (code - 1) ≡ Some (spec.row_of result) }
{
    row_of_part!(code
        40 "jump" [] [] Target,
        41 "jumpif" [B] [] Target,
        42 "jumpnot" [B] [] Target,
        43 "back" [] [] Target,
        44 "getfield" [R] [X] Field,
        45 "putfield" [R X] [] Field,
        46 "getstatic" [] [X] Field,
        47 "putstatic" [X] [] Field,
        48 "getelem" [R I] [X] Element,
        49 "putelem" [R I X] [] Element,
        50 "arraylen" [R] [I] Nothing,
        51 "new" [] [R] Made,
        52 "newarray" [I] [R] Element,
        53 "enter" [R] [] Nothing,
        54 "exit" [R] [] Nothing,
        55 "wait" [R] [] Nothing,
        56 "notify" [R] [] Nothing,
        57 "notifyall" [R] [] Nothing,
        58 "start" [R] [] Nothing,
        59 "join" [R] [] Nothing,
        60 "sleep" [I] [] Nothing,
        61 "yield" [] [] Nothing,
        62 "callstatic" [Arguments] [Outcome] Method,
        63 "callon" [R Arguments] [Outcome] Method,
        64 "return" [] [] Nothing,
        65 "returnvalue" [X] [] Nothing,
        66 "commit" [] [] Nothing,
        67 "assert" [] [] Asserted,
        68 "print" [PartValues] [] Printed,
        69 "throw" [] [] Thrown,
        70 "throwlocal" [] [] Local
    )
}

#[tactic(auto, unfolding(crate::specs::Instructions::instruction_rows))]
fn long_row(code: u8) -> OpRow
    requires first { LAST_OF_ACTIONS < code }
    requires last { code ≤ ROW_COUNT }
    ensures { slice_get spec.instruction_rows (code - 1) ≡ Some (spec.row_of result) }
{
    row_of_part!(code
        71 "long" [] [J] LongPlace,
        72 "widen" [I] [J] Nothing,
        73 "ladd" [J J] [J] Nothing,
        74 "lsub" [J J] [J] Nothing,
        75 "lmul" [J J] [J] Nothing,
        76 "ldiv" [J J] [J] Nothing,
        77 "lrem" [J J] [J] Nothing,
        78 "lneg" [J] [J] Nothing,
        79 "linv" [J] [J] Nothing,
        80 "land" [J J] [J] Nothing,
        81 "lor" [J J] [J] Nothing,
        82 "lxor" [J J] [J] Nothing,
        83 "lshl" [J I] [J] Nothing,
        84 "lshr" [J I] [J] Nothing,
        85 "lushr" [J I] [J] Nothing,
        86 "llt" [J J] [B] Nothing,
        87 "lle" [J J] [B] Nothing,
        88 "lgt" [J J] [B] Nothing,
        89 "lge" [J J] [B] Nothing,
        90 "leq" [J J] [B] Nothing,
        91 "lne" [J J] [B] Nothing,
        92 "low" [J] [I] Nothing,
        93 "waitfor" [R J] [] Nothing
    )
}

/// The table has `ROW_COUNT` rows, no two of one name.
pub fn instructions_differ()
    ensures count { length spec.instruction_rows ≡ ROW_COUNT }
    ensures names { AllPairs (λ x y. x ≢ y) (map spec.name_of spec.instruction_rows) }
{}
