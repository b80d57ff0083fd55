// The verdict on a certificate.
ghost use Rattle.std.specs.Prelude.{◌≡◌, ◌<◌, Some, IfErr, IfOk, OnOk, length};
ghost use Rattle.net_model.specs.Smooth.{IsSmooth};
ghost use Rattle.net_model.specs.Wires.{parts_of};
ghost use Rattle.cert_rules.specs.Acceptance.{Accepts, first_rejected};

use crate::checking::rejected_part;
use cert_rules::Certificate;
use net_model::{Network, PartNo};
use std::marker::Model;

/// A network with a certificate that is accepted for it; seen as the claim that they make, which is proved.
#[derive(Drop)]
pub struct Accepted<'a> {
    net: &'a Network,
    cert: &'a Certificate,
}

impl<'a> Model for Accepted<'a> {
    ghost use Rattle.cert_checker.specs.Claims.{Claim, IsProved};

    ghost Value = { Claim };

    ghost view = { λ a. record { net = a.net.now; entries = a.cert.now } };

    ghost invariant = { λ a. IsProved (record { net = a.net.now; entries = a.cert.now }) };
}

impl<'a> Accepted<'a> {
    ghost use Rattle.cert_checker.specs.Claims.{IsProved};

    /// The network.
    pub fn net(&self) -> &'a Network
        ensures { result.now ≡ self.now.net }
    {
        self.net
    }

    /// The certificate.
    pub fn cert(&self) -> &'a Certificate
        ensures { result.now ≡ self.now.entries }
    {
        self.cert
    }

    /// Does nothing: its clause is that the certificate is accepted for the network, and holds over every
    /// recording that keeps to the declared ranges.
    pub fn holds(&self)
        ensures { IsProved self.now }
    {
        let _ = &self.net;
    }
}

/// Why a certificate isn't accepted: the first part that fails. The first whose entry isn't allowed; where
/// all are allowed, the first whose entry is narrower than its rule gives.
#[derive(Clone, Copy, Debug, PartialEq, Eq)]
pub struct Rejected {
    pub part: PartNo,
}

/// Accepts a certificate that has an entry for each part of a smooth network, or tells the first part that
/// fails. It takes no memory.
pub fn check<'a>(net: &'a Network, cert: &'a Certificate) -> Result<Accepted<'a>, Rejected>
    requires smooth { IsSmooth net.now.wires }
    requires complete { length cert.now ≡ length (parts_of net.now.wires) }
    ensures made { IfOk result (λ a. a ≡ record { net = net.now; entries = cert.now }) }
    ensures accepted { OnOk result (Accepts net.now cert.now) }
    ensures refused { IfErr result (λ _. Accepts net.now cert.now → ⊥) }
    ensures first { IfErr result (λ r. first_rejected net.now cert.now ≡ Some r.part.0) }
    ensures there { IfErr result (λ r. r.part.0 < length (parts_of net.now.wires)) }
{
    match rejected_part(net, cert.bounds()) {
        Some(part) => Err(Rejected { part }),
        None => Ok(Accepted { net, cert }),
    }
}
