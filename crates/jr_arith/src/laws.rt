//! Laws of the definitions, each a function with no work to do: its contract is the law.

ghost use Rattle.std.specs.Prelude.{ℤ, true, ◌≡◌};
ghost use Rattle.jr_arith.specs.declared.operator.Width.{Width};
ghost use Rattle.jr_arith.specs.Arithmetic.{fits, wrapped};

/// What is left of a result at a type's bits is a number that the type has.
pub fn wrapped_numbers_fit()
    ensures { (width : Width) (n : ℤ) → fits width (wrapped width n) ≡ true }
{}

/// A number that the type has is left as it is: so where safe mathematics has a result, it is Java's.
pub fn fitting_numbers_stay()
    ensures { (width : Width) (n : ℤ) → fits width n ≡ true → wrapped width n ≡ n }
{}
