// Several workers answer what one does, and each question is told before it is asked.
ghost use Rattle.std.specs.Prelude.{◌≤◌};

use crate::answers::{CONFLICTS, REMARKS, WISHED, told_report};
use crate::reporting::reported_by;
use requirement_answers::{Asking, Effort, Scope, Watch};
use requirement_document::Document;
use requirement_questions::Limits;
use std::alloc::Global;
use std::test::Fail;
use std::thread::Threads;

const LIMITS: Limits = Limits { steps: 100_000 };

/// How many questions were told, and how many of them about one item.
#[derive(Drop)]
struct Count {
    all: u32,
    about_items: u32,
}

impl Watch for Count {
    fn begin(&mut self, _document: &Document, asking: Asking, _left: usize) {
        self.all = self.all.saturating_add(1);
        if asking != Asking::Together {
            self.about_items = self.about_items.saturating_add(1);
        }
    }
}

/// What this number of workers answers about the document, and how many questions are told.
fn told_by<R: Threads + Sync>(
    rt: &R,
    alloc: Global,
    text: &str,
    workers: u32,
) -> Result<String, Fail>
    requires some { 1 ≤ workers }
    requires few { workers ≤ 16 }
{
    let mut count = Count {
        all: 0,
        about_items: 0,
    };
    let effort = Effort {
        limits: LIMITS,
        workers,
    };
    let (_, report) = reported_by(rt, alloc, text, Scope::All, effort, &mut count)?;
    let told = told_report(alloc, &report)?;
    let Count { all, about_items } = count;
    Ok(format!(in alloc; "{all} {about_items} {told}")?)
}

/// A document, how many questions are told, and how many of them about one item.
const ROWS: &[(&str, &str)] = &[
    ("", "1 0 "),
    (WISHED, "5 4 "),
    (CONFLICTS, "6 3 "),
    (REMARKS, "5 4 "),
];

#[test]
fn workers_answer_as_one(rt: HostRuntime) -> Result<(), Fail> {
    let alloc = rt.alloc();
    for (text, counts) in ROWS {
        let one = told_by(&rt, alloc, text, 1)?;
        assert!(rt; one.as_str().starts_with(*counts), "{}", one);
        assert_eq!(rt; told_by(&rt, alloc, text, 2)?.as_str(), one.as_str());
        assert_eq!(rt; told_by(&rt, alloc, text, 3)?.as_str(), one.as_str());
        assert_eq!(rt; told_by(&rt, alloc, text, 16)?.as_str(), one.as_str());
    }
    Ok(())
}
