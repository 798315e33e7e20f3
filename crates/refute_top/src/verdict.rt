// The text of what is found of a certificate.
ghost use Rattle.std.specs.Prelude.{◌≡◌, ◌++◌, OnOk};
ghost use Rattle.refute_top.specs.Texts.{fault_text, reason_text, verdict_text};

use claim_check::{CertificateFault, ClaimVerdict, LayerFault};
use itoa::Buffer;
use report::{line, numbered};
use std::alloc::AllocError;

/// Adds VERIFIED, or REJECTED with the reason.
pub fn add_verdict(verdict: ClaimVerdict, out: &mut Vec<u8>) -> Result<(), AllocError>
    ensures { OnOk result (out.new.items ≡ out.old.items ++ verdict_text verdict) }
{
    match verdict {
        ClaimVerdict::Verified => line(b"VERIFIED", out),
        ClaimVerdict::Refused(reason) => add_reason(reason, out),
    }
}

fn add_reason(reason: CertificateFault, out: &mut Vec<u8>) -> Result<(), AllocError>
    ensures { OnOk result (out.new.items ≡ out.old.items ++ reason_text reason) }
{
    match reason {
        CertificateFault::Kind => line(b"REJECTED kind", out),
        CertificateFault::Layer(number, fault) => {
            let mut buffer = Buffer::new();
            out.extend_from_slice(b"REJECTED layer ")?;
            out.extend_from_slice(buffer.format(number).as_bytes())?;
            add_fault(fault, out)?;
            Ok(())
        }
        CertificateFault::Line(number) => numbered(b"REJECTED line ", number.into(), out),
        CertificateFault::Target => line(b"REJECTED target", out),
    }
}

/// Adds what stands behind the number of a layer.
fn add_fault(fault: LayerFault, out: &mut Vec<u8>) -> Result<(), AllocError>
    ensures { OnOk result (out.new.items ≡ out.old.items ++ fault_text fault) }
{
    match fault {
        LayerFault::Eventuality => line(b" eventuality", out),
        LayerFault::Claim(number) => numbered(b" claim ", number.into(), out),
        LayerFault::BaseLine(number) => numbered(b" base line ", number.into(), out),
        LayerFault::BaseTarget(number) => numbered(b" base target ", number.into(), out),
        LayerFault::StepLine(number) => numbered(b" step line ", number.into(), out),
        LayerFault::StepTarget(number) => numbered(b" step target ", number.into(), out),
    }
}
