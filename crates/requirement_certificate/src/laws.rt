//! Laws of certificates. Each function calls the laws that it stands on: its contract is the law, and a proof
//! cites it by a call.
ghost use Rattle.requirement_certificate.specs.Laws.{CertificatesAreTaken, ReportsHaveFormulas};

/// What is written of a right report is read as what it is: the formula of the first answer that there is no
/// trace, and a certificate that is lawful for it. The certificate is verified. All this holds where both are
/// within the limits of texts.
pub fn certificates_are_taken()
    ensures { CertificatesAreTaken }
{
    ltl_parser::laws::printed_text();
}

/// The certificate of each right report can be asked for.
pub fn reports_have_formulas()
    ensures { ReportsHaveFormulas }
{}
