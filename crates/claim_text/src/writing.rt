// The text of a certificate, written.
ghost use Rattle.std.specs.Prelude.{◌≡◌, ◌++◌, OnOk, map, decimal, codes};
ghost use Rattle.std.specs.List.{flat_map};
ghost use Rattle.cert_text.specs.Text.{kind_text, literal_text, hint_text, target_text};
ghost use Rattle.claim_check.specs.Data.{lines_in, layer_in, certificate_in};
ghost use Rattle.claim_text.specs.Text.{claim_text, line_text, layer_text, text_of, targets_text};
ghost use Rattle.claim_text.specs.Text.{eventuality_number};

use cert_text::printing;
use claim_check::{Certificate, HintedLines, Layer};
use cnf_base::{ClauseList, Clauses, Literal};
use std::alloc::AllocError;

fn push_targets(word: &[u8], targets: &[u64], out: &mut Vec<u8>) -> Result<(), AllocError>
    ensures { OnOk result (out.new.items ≡ out.old.items ++ targets_text word.now targets.now) }
{
    out.extend_from_slice(word)?;
    printing::push_targets(targets, out)?;
    out.push(b'\n')?;
    Ok(())
}

fn push_claim(claim: &[Literal], out: &mut Vec<u8>) -> Result<(), AllocError>
    ensures { OnOk result (out.new.items ≡ out.old.items ++ claim_text claim.now) }
{
    out.extend_from_slice(b"c ")?;
    printing::push_literals(claim, out)?;
    out.extend_from_slice(b"0\n")?;
    Ok(())
}

fn push_claims(claims: &ClauseList, out: &mut Vec<u8>) -> Result<(), AllocError>
    ensures { OnOk result (out.new.items ≡ out.old.items ++ flat_map claim_text claims.now) }
{
    for index in 0..claims.count() {
        push_claim(claims.clause(index + 1), out)?;
    }
    Ok(())
}

fn push_lines(lines: &HintedLines, out: &mut Vec<u8>) -> Result<(), AllocError>
    ensures { OnOk result (out.new.items ≡ out.old.items ++ flat_map line_text (lines_in lines.now)) }
{
    for index in 0..lines.literals.count() {
        printing::push_line(
            lines.literals.clause(index + 1),
            lines.hints_at(index as usize),
            out,
        )?;
    }
    Ok(())
}

fn number_of(eventuality: Option<u32>) -> u64
    ensures { result ≡ eventuality_number eventuality }
{
    match eventuality {
        None => 0,
        Some(number) => number as u64 + 1,
    }
}

fn push_layer(layer: &Layer, out: &mut Vec<u8>) -> Result<(), AllocError>
    ensures { OnOk result (out.new.items ≡ out.old.items ++ layer_text (layer_in layer.now)) }
{
    out.extend_from_slice(b"layer ")?;
    printing::push_number(number_of(layer.eventuality), out)?;
    out.push(b'\n')?;
    push_claims(&layer.claims, out)?;
    push_lines(&layer.base_lines, out)?;
    push_targets(b"base", &layer.base_targets, out)?;
    push_lines(&layer.step_lines, out)?;
    push_targets(b"step", &layer.step_targets, out)?;
    Ok(())
}

fn push_layers(layers: &[Layer], out: &mut Vec<u8>) -> Result<(), AllocError>
    ensures { OnOk result (out.new.items ≡ out.old.items ++ flat_map layer_text (map layer_in layers.now)) }
{
    for layer in layers {
        push_layer(layer, out)?;
    }
    Ok(())
}

/// Puts the text of the certificate behind what is there. It is read again where the certificate is writable:
/// each layer has a claim and as many targets as there have to be, and all numbers are in range.
pub fn append(certificate: &Certificate, out: &mut Vec<u8>) -> Result<(), AllocError>
    ensures { OnOk result (out.new.items ≡ out.old.items ++ text_of (certificate_in certificate.now)) }
{
    out.extend_from_slice(b"ltlinv 1 ")?;
    out.extend_from_slice(printing::kind_bytes(certificate.kind))?;
    out.push(b'\n')?;
    push_layers(&certificate.layers, out)?;
    push_lines(&certificate.lines, out)?;
    push_targets(b"close", &[certificate.target], out)?;
    Ok(())
}
