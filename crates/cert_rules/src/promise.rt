ghost use Rattle.cert_rules.specs.Theorem.{CertificatesHold, AcceptsExactly, AllAreSmooth};

/// Does nothing: its clause is the promise of certificates. Where a certificate is accepted for a
/// valid network, then over each recording that keeps to the declared ranges the machine never
/// saturates, no divisor is 0, and each value lies in its range and within its error of the exact
/// value.
pub fn certificates_hold()
    ensures { CertificatesHold }
{}

/// Does nothing: its clauses say that a certificate with an entry for each part is accepted exactly
/// where no part is rejected, and that each valid network is smooth.
pub fn acceptance_is_exact()
    ensures exact { AcceptsExactly }
    ensures smooth { AllAreSmooth }
{}
