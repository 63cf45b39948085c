/// What is asked of a table.
#[derive(Clone, Copy, Debug, PartialEq, Eq)]
pub enum Question {
    /// That its columns are put into memory.
    Populate,
    /// The sum of the balances of each branch.
    Sums,
    /// The number of rows of each branch, and the sum of their balances.
    CountsAndSums,
}
