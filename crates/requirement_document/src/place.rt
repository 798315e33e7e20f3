// A refusal with the place at which it stands.
ghost use Rattle.std.specs.Prelude.{◌≡◌, ◌+◌, ◌<◌, ◌^◌};
ghost use Rattle.toml.specs.View.{view};
ghost use Rattle.requirement_document.specs.declared.fault.Refused.TheVariants as refused;
ghost use Rattle.requirement_document.specs.declared.fault.Place.TheVariants as places;
ghost use Rattle.requirement_document.specs.Inner.{IsPlaced};

use crate::fault::Refusal;
use crate::values::copy_at;
use crate::{Cause, DocumentFault, Key, Place, Refused, Section};
use std::alloc::Global;
use toml::Value;

/// The fault of the document as a whole.
pub fn whole(cause: Cause) -> Refused
    ensures { result ≡ refused.Fault (record { place = places.Document; cause = cause }) }
{
    Refused::Fault(DocumentFault {
        place: Place::Document,
        cause,
    })
}

/// The refusal of the entry with this number, from 0, of a section.
pub fn placed(
    alloc: Global,
    section: Section,
    index: usize,
    entry: &Value,
    refusal: Refusal,
) -> Refused
    requires { index + 1 < 2 ^ 64 }
    ensures { IsPlaced section index (view entry.now) refusal result }
{
    let cause = match refusal {
        Refusal::Cause(cause) => cause,
        Refusal::NoMemory => return Refused::NoMemory,
    };
    let name = match copy_at(alloc, entry, Key::Name) {
        Ok(name) => name,
        Err(_) => return Refused::NoMemory,
    };
    let formula = match copy_at(alloc, entry, Key::Formula) {
        Ok(formula) => formula,
        Err(_) => return Refused::NoMemory,
    };
    Refused::Fault(DocumentFault {
        place: Place::Entry {
            section,
            number: index as u64 + 1,
            name,
            formula,
        },
        cause,
    })
}
