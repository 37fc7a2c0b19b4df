// The refusals of document 01, and the results that carry them.
#![tactic(auto)]

ghost use Rattle.std.specs.Prelude.{◌≡◌};
ghost use Rattle.refusal.specs.Answers.{answer_column, answer_number, column_of, number};

#[derive(Clone, Copy, Debug, PartialEq, Eq)]
pub enum Refusal {
    ManyColumns,
    ManyRows,
    ManyRounds,
    MatrixLength,
    TargetLength,
    OutputLength,
    WorkspaceShort,
    // at this column of the matrix
    NotSpd(usize),
    SmallPivot(usize),
    FewRows,
    Malformed,
    LowThreshold,
    NoSuchTerm,
}

// What a public call answers that gives no value of its own.
pub type Answer = Result<(), Refusal>;

// What a solver answers inside: done, or the column of its matrix at which it refused.
pub type Solved = Result<(), usize>;

// The number of a refusal in document 01.
pub fn number(w: Refusal) -> u64
    ensures { result ≡ number w }
{
    match w {
        Refusal::ManyColumns => 1,
        Refusal::ManyRows => 2,
        Refusal::ManyRounds => 3,
        Refusal::MatrixLength => 4,
        Refusal::TargetLength => 5,
        Refusal::OutputLength => 6,
        Refusal::WorkspaceShort => 7,
        Refusal::NotSpd(_) => 8,
        Refusal::SmallPivot(_) => 9,
        Refusal::FewRows => 10,
        Refusal::Malformed => 11,
        Refusal::LowThreshold => 12,
        Refusal::NoSuchTerm => 13,
    }
}

// The column that a refusal carries: 8 and 9 do.
pub fn column_of(w: Refusal) -> Option<usize>
    ensures { result ≡ column_of w }
{
    match w {
        Refusal::NotSpd(c) | Refusal::SmallPivot(c) => Some(c),
        _ => None,
    }
}

// An answer by number, whatever value it gives: 0 where nothing is refused, else the refusal's.
pub fn answer_number<T: Copy>(a: Result<T, Refusal>) -> u64
    ensures { result ≡ answer_number a }
{
    match a {
        Ok(_) => 0,
        Err(w) => number(w),
    }
}

// The column at which an answer says that a solver refused.
pub fn answer_column(a: Answer) -> Option<usize>
    ensures { result ≡ answer_column a }
{
    a.err().and_then(column_of)
}
