// What is asked of a document, and what is answered.
use requirement_questions::QuestionAnswer;

/// A question about a document. Items are counted from 0 in the document's order.
#[derive(Clone, Copy, Debug, PartialEq, Eq)]
pub enum Asking {
    /// Can all that is given be met together?
    Together,
    /// Can what the item waits for ever happen?
    Triggered(u32),
    /// Does the item say anything that the others do not?
    New(u32),
    /// May it happen?
    Possible(u32),
    /// Does it follow?
    Follows(u32),
}

/// A question with its answer. The members of a `Cannot` are numbered as the items of the document are.
#[derive(Drop)]
pub struct Reply {
    pub asking: Asking,
    pub answer: QuestionAnswer,
}
