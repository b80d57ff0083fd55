// The lines that are said of faults of texts: a network's and a certificate's.
ghost use Rattle.std.specs.Prelude.{◌≡◌, IfOk};
ghost use Rattle.bench_core.specs.HowItEnds.{RefusesWith};
ghost use Rattle.bench_core.specs.Statuses.{IsRefusalStatus};
ghost use Rattle.bench_core.specs.FaultTexts.{bad_certificate, bad_network, cert_kind_word, fault_line, net_kind_word};

use super::endings::Ending;
use super::notice::Notice;
use cert_checker::{CertFault, CertKind};
use itoa::Buffer;
use net_model::NetKind;
use net_text::NetFault;
use std::alloc::{AllocError, Global};

/// The network's text has a fault: the file, the line and the kind.
#[tactic(auto, unfolding(crate::specs::FaultTexts::bad_network))]
pub(crate) fn refuse_network(alloc: Global, file: &str, fault: NetFault) -> Ending
    ensures { RefusesWith (bad_network file.now fault) result }
{
    refuse_fault(alloc, 3, file, fault.line, net_kind_word(fault.kind))
}

/// The certificate's text has a fault: the file, the line and the kind.
#[tactic(auto, unfolding(crate::specs::FaultTexts::bad_certificate))]
pub(crate) fn refuse_certificate(alloc: Global, file: &str, fault: CertFault) -> Ending
    ensures { RefusesWith (bad_certificate file.now fault) result }
{
    refuse_fault(alloc, 5, file, fault.line, cert_kind_word(fault.kind))
}

// A refusal with this status that tells the file, the line and the kind of a fault.
fn refuse_fault(alloc: Global, status: u8, file: &str, line: u32, kind: &[u8]) -> Ending
    requires { IsRefusalStatus status }
    ensures { RefusesWith (record { status = status; text = fault_line file.now line kind.now }) result }
{
    match fault_line(alloc, file.as_bytes(), line, kind) {
        Ok(text) => Ending::Refused(Notice { status, text }),
        Err(_) => Ending::OutOfMemory,
    }
}

// `FILE:LINE: KIND`, with its line feed.
fn fault_line(alloc: Global, file: &[u8], line: u32, kind: &[u8]) -> Result<Vec<u8>, AllocError>
    ensures { IfOk result (λ text. text.items ≡ fault_line file.now line kind.now) }
{
    let mut digits = Buffer::new();
    let number = digits.format(line).as_bytes();
    [file, b":", number, b": ", kind, b"\n"].concat(alloc)
}

fn net_kind_word(kind: NetKind) -> &'static [u8]
    ensures { result.now ≡ net_kind_word kind }
{
    match kind {
        NetKind::NoHead => b"NoHead",
        NetKind::BadLine => b"BadLine",
        NetKind::BadName => b"BadName",
        NetKind::Repeated => b"Repeated",
        NetKind::BadType => b"BadType",
        NetKind::UnknownRoutine => b"UnknownRoutine",
        NetKind::BadCount => b"BadCount",
        NetKind::UnknownName => b"UnknownName",
        NetKind::LaterWire => b"LaterWire",
        NetKind::TypeDiffers => b"TypeDiffers",
        NetKind::BadNumber => b"BadNumber",
        NetKind::OutOfRange => b"OutOfRange",
        NetKind::TooMany => b"TooMany",
        NetKind::Missing => b"Missing",
        NetKind::NotBuilt => b"NotBuilt",
    }
}

fn cert_kind_word(kind: CertKind) -> &'static [u8]
    ensures { result.now ≡ cert_kind_word kind }
{
    match kind {
        CertKind::NoHead => b"NoHead",
        CertKind::BadLine => b"BadLine",
        CertKind::WrongPart => b"WrongPart",
        CertKind::BadNumber => b"BadNumber",
        CertKind::EmptyRange => b"EmptyRange",
        CertKind::Missing => b"Missing",
    }
}
