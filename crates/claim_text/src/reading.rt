// A certificate, read in one pass over the bytes of its text.
ghost use Rattle.std.specs.Prelude.{◌≡◌, None, Some, IfOk, MatchOption, MatchResult};
ghost use Rattle.claim_check.specs.Data.{certificate_in};
ghost use Rattle.claim_text.specs.Text.{IsTextOf, IsFault};
ghost use Rattle.claim_text.specs.Scan.{step, IsInRange};
ghost use Rattle.claim_text.specs.Stored.{draft_in, ArePaired, IsRefused};

use crate::TextRefused;
use crate::draft::{Draft, act, blank};
use crate::place::Place;
use crate::scanning::advance;
use claim_check::Certificate;
use std::alloc::{AllocError, Global};

/// The bytes that must come behind this one and the place behind them, if some text goes on with it.
fn read_byte(
    draft: &mut Draft,
    alloc: Global,
    left: &'static [u8],
    place: Place,
    byte: u8,
) -> Result<Option<(&'static [u8], Place)>, AllocError>
    requires paired { ArePaired draft.old.lines }
    requires range { IsInRange place }
    ensures { IfOk result (λ o. MatchOption o (step (left.now, place, draft_in draft.old) byte ≡ None)
        (λ r. ArePaired draft.new.lines × (step (left.now, place, draft_in draft.old) byte
        ≡ Some (r.0.now, r.1, draft_in draft.new)))) }
{
    let Some((must, behind, what)) = advance(draft, left, place, byte) else {
        return Ok(None);
    };
    act(draft, alloc, what)?;
    Ok(Some((must, behind)))
}

/// The certificate that has this text, or the place of the fault.
pub fn read(alloc: Global, bytes: &[u8]) -> Result<Certificate, TextRefused>
    ensures { MatchResult result (λ c. IsTextOf bytes.now (certificate_in c)) (λ e. IsRefused bytes.now e) }
{
    let mut draft = blank(alloc);
    let mut left: &'static [u8] = b"ltlinv 1 ";
    let mut place = Place::Kind;
    let mut index = 0;
    'bytes: while index < bytes.len() {
        let Some(found) = read_byte(&mut draft, alloc, left, place, bytes[index])? else {
            return Err(TextRefused::Form(index as u64));
        };
        left = found.0;
        place = found.1;
        index += 1;
    }
    if !left.is_empty() {
        return Err(TextRefused::Form(bytes.len() as u64));
    }
    let Place::End = place else {
        return Err(TextRefused::Form(bytes.len() as u64));
    };
    Ok(Certificate {
        kind: draft.kind,
        layers: draft.layers,
        lines: draft.lines,
        target: draft.target,
    })
}
