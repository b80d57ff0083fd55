// Reads a certificate's text.
ghost use Rattle.std.specs.Prelude.{◌≡◌, ◌+◌, ◌<◌, ◌^◌, [], length, IfOk, vec_items};
ghost use Rattle.std.specs.Result.{result_map_both};
ghost use Rattle.text_words.specs.Lines.{lines_from};
ghost use Rattle.text_words.specs.Readers.{read_below};
ghost use Rattle.net_model.specs.Wires.{parts_of};
ghost use Rattle.cert_checker.specs.CertificateText.{certificate_reader};
ghost use Rattle.cert_checker.specs.CertificateReading.{GivesEntries, ReadsCertificate};

use crate::faults::{CertError, CertFault, CertKind};
use crate::part_line::part_line;
use cert_rules::{Bounds, Certificate};
use net_model::Network;
use std::alloc::Global;
use text_words::{behind_head, count_words, next_line};

/// The certificate that the text says for the network: one entry for each part, in the order of the parts. Each line
/// is looked at until the first that has a fault. Where memory runs out, nothing is said of the text.
pub fn read_cert(alloc: Global, net: &Network, text: &[u8]) -> Result<Certificate, CertError>
    requires { length text.now < 2 ^ 32 }
    ensures reads { ReadsCertificate net.now text.now result }
    ensures complete { IfOk result (λ cert. length cert ≡ length (parts_of net.now.wires)) }
{
    let entries = read_entries(alloc, net, text)?;
    match Certificate::new(entries) {
        Ok(certificate) => Ok(certificate),
        Err(_) => unreachable!(),
    }
}

// The entries that the text says. A line is refused where its entry isn't proper, so they make a certificate.
#[tactic(auto, unfolding(crate::specs::CertificateText::certificate_of, text_words::specs::Readers::said_by))]
fn read_entries(alloc: Global, net: &Network, text: &[u8]) -> Result<Vec<Bounds>, CertError>
    requires { length text.now < 2 ^ 32 }
    ensures reads { ReadsCertificate net.now text.now
        (result_map_both vec_items (λ error. error) result) }
    ensures complete { IfOk result (λ v. length v.items ≡ length (parts_of net.now.wires)) }
    ensures few { IfOk result (λ v. length v.items < 2 ^ 32) }
{
    match behind_head(b"cert", text) {
        Ok((head, lines)) => entries_below(alloc, net, head, lines),
        Err(line) => Err(CertError::Fault(CertFault {
            line,
            kind: CertKind::NoHead,
        })),
    }
}

// The entries of the lines below the head.
fn entries_below(
    alloc: Global,
    net: &Network,
    head: u32,
    lines: &[u8],
) -> Result<Vec<Bounds>, CertError>
    requires { head + length lines.now < 2 ^ 32 }
    ensures reads { GivesEntries (read_below (certificate_reader net.now) head [] (lines_from lines.now))
        (result_map_both vec_items (λ error. error) result) }
    ensures complete { IfOk result (λ v. length v.items ≡ length (parts_of net.now.wires)) }
    ensures few { IfOk result (λ v. length v.items < 2 ^ 32) }
{
    let Ok(mut entries) = Vec::with_capacity(alloc, net.parts().len()) else {
        return Err(CertError::OutOfMemory);
    };
    let mut above = head;
    let mut rest = lines;
    while let Some((line, after)) = next_line(rest) {
        above += 1;
        if count_words(line) > 0 {
            match part_line(net, entries.len(), line) {
                Ok(entry) => {
                    let Ok(()) = entries.push(entry) else {
                        return Err(CertError::OutOfMemory);
                    };
                }
                Err(kind) => return Err(CertError::Fault(CertFault { line: above, kind })),
            }
        }
        rest = after;
    }
    if entries.len() == net.parts().len() {
        Ok(entries)
    } else {
        Err(CertError::Fault(CertFault {
            line: above,
            kind: CertKind::Missing,
        }))
    }
}
