// Why a certificate is not lawful. Layers, claims and lines are numbered from 1, and the lines of a base, of
// a step and of the close each on their own.

/// What is wrong with a layer, the first in this order.
#[derive(Clone, Copy, Debug, PartialEq, Eq, Drop)]
pub enum LayerFault {
    /// Its eventuality is none of the formula's, or it has one for finite traces.
    Eventuality,
    /// This is its first claim that has a letter of no entry.
    Claim(u64),
    /// This is the first line of its base that is no hinted step.
    BaseLine(u64),
    /// This is its first claim that has no target at the base.
    BaseTarget(u64),
    /// This is the first line of its step that is no hinted step.
    StepLine(u64),
    /// This is its first claim that has no target at the step.
    StepTarget(u64),
}

/// What is wrong with a certificate, the first in this order.
#[derive(Clone, Copy, Debug, PartialEq, Eq, Drop)]
pub enum CertificateFault {
    /// It is of the other kind.
    Kind,
    /// This is the first layer that is not lawful.
    Layer(u64, LayerFault),
    /// This is the first line of the close that is no hinted step.
    Line(u64),
    /// The target of the close names no line that says that no state is a first one.
    Target,
}

/// What is said of a certificate.
#[derive(Clone, Copy, Debug, PartialEq, Eq, Drop)]
pub enum ClaimVerdict {
    Verified,
    Refused(CertificateFault),
}
