//! Laws of lawful certificates. Each function is empty: its contract is the law, and a proof cites it by a
//! call.
ghost use Rattle.cert_check.specs.Answer.{AnswersAreOne, AllGoodIsVerified, VerifiedHasNoTrace};
ghost use Rattle.cert_check.specs.Lawful.{LawfulHasNoTrace, StepsAreLawful, StepsVerify};
ghost use Rattle.cert_check.specs.Trimmed.{TargetsAreLines, TrimmedCloses, TrimmedVerifies};

/// No trace of the kind satisfies a formula that has a lawful certificate, and lines that close the tableau
/// give one.
pub fn certified()
    ensures trace { LawfulHasNoTrace }
    ensures steps { StepsAreLawful }
    ensures verify { StepsVerify }
{}

/// The targets of a closed tableau are lines. The lines that they stand on close it too, and give a lawful
/// certificate.
pub fn trimmed()
    ensures lines { TargetsAreLines }
    ensures closes { TrimmedCloses }
    ensures verify { TrimmedVerifies }
{}

/// A check has one answer, and a certificate with nothing bad is verified.
pub fn answers()
    ensures one { AnswersAreOne }
    ensures good { AllGoodIsVerified }
{}

/// Where the answer is that the certificate is verified, no trace of the kind satisfies the formula.
pub fn nothing_satisfies()
    ensures { VerifiedHasNoTrace }
{}
