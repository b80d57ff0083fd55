// `cert_checker`: a certificate's text that is read and printed, and one of each fault. Further faults are told by the
// program in the end-to-end suite.
ghost use Rattle.std.specs.Prelude.{◌≡◌, IfOk, length};
ghost use Rattle.net_model.specs.Wires.{parts_of};

use crate::networks::network;
use cert_checker::{CertError, CertFault, CertKind, print_cert, read_cert};
use cert_rules::Certificate;
use net_model::Network;
use std::alloc::Global;
use std::test::Fail;

const SUM: &[u8] =
    b"net 1\nin a s16 0 1000\nin b s16.4 -160 160\nwire c s16 = Mfx_ConvertP2_s16_s16 b\nwire s s16 = Mfx_Add_s16s16_s16 a c\nout s\n";

// A certificate's text for the sum, and the one that it is printed as.
const SUM_TEXT: &[u8] =
    b"\xEF\xBB\xBF\ncert 1 # a sum\r\npart a 0 01000 0\n\npart b -160 +160 -0\npart c\t-10 10 65536\npart s -10 1010 65536";

const SUM_CERT: &[u8] =
    b"cert 1\npart a 0 1000 0\npart b -160 160 0\npart c -10 10 65536\npart s -10 1010 65536\n";

// The parts of a lag are `x`, `y.Y`, `y.X1` and `y`.
const LAG: &[u8] = b"net 1\nin x s16 0 100\nwire y s16 = Efx_PT1_s16_s16 x 32768 65536\nout y\n";

const LAG_CERT: &[u8] =
    b"cert 1\npart x 0 100 0\npart y.Y 0 6553600 65536\npart y.X1 0 100 0\npart y 0 100 32769\n";

const FAULTS: [(&[u8], u32, CertKind); 6] = [
    (b"", 1, CertKind::NoHead),
    (b"cert 1\npart x 0 100\n", 2, CertKind::BadLine),
    (b"cert 1\npart y 0 100 0\n", 2, CertKind::WrongPart),
    (b"cert 1\npart x 0 100 -1\n", 2, CertKind::BadNumber),
    (b"cert 1\npart x 9 8 0\n", 2, CertKind::EmptyRange),
    (b"cert 1\npart x 0 100 0\n", 2, CertKind::Missing),
];

// The certificate of a text that is short enough to be read.
fn certificate(alloc: Global, net: &Network, text: &[u8]) -> Result<Certificate, Fail>
    ensures { IfOk result (λ cert. length cert ≡ length (parts_of net.now.wires)) }
{
    if text.len() < 1000 {
        Ok(read_cert(alloc, net, text)?)
    } else {
        Err("a text too long for a test")?
    }
}

// A text as its certificate is printed.
fn printed(alloc: Global, net: &[u8], text: &[u8]) -> Result<Vec<u8>, Fail> {
    let net = network(alloc, net)?;
    let cert = certificate(alloc, &net, text)?;
    Ok(print_cert(alloc, &net, &cert)?)
}

#[test]
fn prints_what_it_read(rt: HostRuntime) -> Result<(), Fail> {
    for (net, text, canonical) in [(SUM, SUM_TEXT, SUM_CERT), (LAG, LAG_CERT, LAG_CERT)] {
        assert_eq!(rt; printed(rt.alloc(), net, text)?.as_slice(), canonical);
    }
    Ok(())
}

// The first fault of a text, if it has one.
fn fault_of(alloc: Global, net: &Network, text: &[u8]) -> Result<Option<CertFault>, Fail> {
    if text.len() >= 1000 {
        Err("a text too long for a test")?;
    }
    match read_cert(alloc, net, text) {
        Ok(_) => Ok(None),
        Err(CertError::Fault(fault)) => Ok(Some(fault)),
        Err(CertError::OutOfMemory) => Err("out of memory")?,
    }
}

// The first fault of a text for the lag, if it has one.
fn lag_fault(alloc: Global, text: &[u8]) -> Result<Option<CertFault>, Fail> {
    let net = network(alloc, LAG)?;
    fault_of(alloc, &net, text)
}

#[test]
fn faults_are_told(rt: HostRuntime) -> Result<(), Fail> {
    for (text, line, kind) in FAULTS {
        let fault = lag_fault(rt.alloc(), text)?;
        assert_eq!(rt; fault, Some(CertFault { line, kind }));
    }
    Ok(())
}
