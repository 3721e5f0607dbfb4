// The numbers of refusals that the table does not have.
ghost use Rattle.std.specs.Prelude.{◌≡◌, true, ◌||◌, eqb, ltb};

// A number that no row of the table has, so that each number is one refusal and no more.
#[derive(Clone, Copy, Debug, PartialEq, Eq)]
pub struct OtherNumber {
    pub(crate) number: u8,
    ghost of_no_row: { (eqb number 0 || ltb 8 number) ≡ true },
}
