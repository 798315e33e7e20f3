// What a clause is where some literals are false: the one question that is asked at each hint.
use cnf_base::Literal;

/// What a named clause is under the literals that are false so far.
#[derive(Clone, Copy, Debug, Drop)]
pub enum ClauseStatus {
    /// Each of its literals is false.
    AllFalse,
    /// All are false but this one, which has no value.
    Forces(Literal),
    /// Neither of these, or there is no such clause.
    Neither,
}
