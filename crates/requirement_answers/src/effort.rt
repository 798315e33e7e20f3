// How a report is made, and who is told of what is asked.
use crate::asking::Asking;
use requirement_document::Document;
use requirement_questions::Limits;

/// How long each question is tried, and by how many workers.
#[derive(Clone, Copy)]
pub struct Effort {
    pub limits: Limits,
    /// From 1 to 16. The answers do not depend on it.
    pub workers: u32,
}

/// Is told of each question before it is asked.
pub trait Watch {
    /// `left` is how many questions are known to stand behind it.
    fn begin(&mut self, document: &Document, asking: Asking, left: usize);
}

/// Nobody is told.
#[derive(Clone, Copy, Debug, PartialEq, Eq)]
pub struct NoWatch;

impl Watch for NoWatch {
    fn begin(&mut self, _document: &Document, _asking: Asking, _left: usize) {}
}
