// What is printed, and the status with it.
ghost use Rattle.std.specs.Prelude.{◌≡◌, IfOk};
ghost use Rattle.report.specs.declared.status.Status.TheVariants as statuses;
ghost use Rattle.requirement_document.specs.Values.{document_in};
ghost use Rattle.requirements_top.specs.Refusing as refusing;
ghost use Rattle.requirements_top.specs.Texts as texts;
ghost use Rattle.requirements_top.specs.Inner.{Shows};

use crate::Status;
use crate::refusing::{refusal_status, refusal_text};
use crate::texts::{
    beyond_text, cells_text, help_text, no_certificate_text, no_item_text, usage_text,
};
use requirement_document::{Document, DocumentFault};
use std::alloc::{AllocError, Global};

/// What is printed.
#[derive(Drop)]
pub struct Output {
    pub status: Status,
    pub text: Vec<u8>,
}

/// The usage.
pub fn usage(alloc: Global) -> Result<Output, AllocError>
    ensures { IfOk result (λ out. Shows out statuses.Usage texts.usage_text) }
{
    Ok(Output {
        status: Status::Usage,
        text: usage_text(alloc)?,
    })
}

/// The help.
pub fn help(alloc: Global) -> Result<Output, AllocError>
    ensures { IfOk result (λ out. Shows out statuses.Good texts.help_text) }
{
    Ok(Output {
        status: Status::Good,
        text: help_text(alloc)?,
    })
}

/// A refused document.
pub fn refusal(alloc: Global, fault: &DocumentFault) -> Result<Output, AllocError>
    ensures { IfOk result (λ out.
        Shows out (refusing.refusal_status fault.now) (refusing.refusal_text fault.now)) }
{
    Ok(Output {
        status: refusal_status(fault),
        text: refusal_text(alloc, fault)?,
    })
}

/// Nothing has the name.
pub fn no_item(alloc: Global, name: &str) -> Result<Output, AllocError>
    ensures { IfOk result (λ out. Shows out statuses.Usage (texts.no_item_text name.now)) }
{
    Ok(Output {
        status: Status::Usage,
        text: no_item_text(alloc, name)?,
    })
}

/// No answer about what has the name says that there is no trace.
pub fn no_certificate(alloc: Global, name: &str) -> Result<Output, AllocError>
    ensures { IfOk result (λ out. Shows out statuses.Negative (texts.no_certificate_text name.now)) }
{
    Ok(Output {
        status: Status::Negative,
        text: no_certificate_text(alloc, name)?,
    })
}

/// The certificate is too long, or its formula is too long or too large.
pub fn beyond(alloc: Global) -> Result<Output, AllocError>
    ensures { IfOk result (λ out. Shows out statuses.Limit texts.beyond_text) }
{
    Ok(Output {
        status: Status::Limit,
        text: beyond_text(alloc)?,
    })
}

/// The behaviour is too long for an item.
pub fn cells(alloc: Global, document: &Document, behaviour: u32) -> Result<Output, AllocError>
    ensures { IfOk result (λ out. Shows out statuses.Limit
        (texts.cells_text (document_in document.now) behaviour)) }
{
    Ok(Output {
        status: Status::Limit,
        text: cells_text(alloc, document, behaviour)?,
    })
}
