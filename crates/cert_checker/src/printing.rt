// Prints the text of a certificate.
ghost use Rattle.std.specs.Prelude.{◌≡◌, ◌<◌, ◌++◌, [], ◌∷◌, IfOk, OnOk, Ok, length};
ghost use Rattle.std.specs.Fmt.{signed_decimal};
ghost use Rattle.text_words.specs.Printed.{spaced, word_lines};
ghost use Rattle.net_model.specs.Wires.{parts_of};
ghost use Rattle.net_model.specs.Validity.{IsValid};
ghost use Rattle.cert_checker.specs.CertificateText.{certificate_of};
ghost use Rattle.cert_checker.specs.CertificatePrinting.{PrintedCertificatesAreRead, certificate_text, entry_lines, entry_words};

use crate::part_naming::push_part_name;
use cert_rules::{Bounds, Certificate};
use itoa::Buffer;
use net_model::Network;
use std::alloc::{AllocError, Global};

/// The text of a certificate that has an entry for each part: its head, and a line for each part in their
/// order, with one space between words. It is read as the same certificate.
pub fn print_cert(alloc: Global, net: &Network, cert: &Certificate) -> Result<Vec<u8>, AllocError>
    requires { length cert.now ≡ length (parts_of net.now.wires) }
    ensures text { IfOk result (λ text. text.items ≡ certificate_text net.now cert.now) }
    ensures read { IfOk result (λ text. certificate_of net.now text.items ≡ Ok cert.now) }
{
    let mut text = Vec::from_slice(alloc, b"cert 1\n")?;
    push_entries(&mut text, net, cert.bounds())?;
    Ok(text)
}

/// Entries that a certificate can have, one for each part of a valid network, are read again from their text.
pub fn law_of_printing()
    ensures { PrintedCertificatesAreRead }
{}

// Appends the line of each part.
fn push_entries(text: &mut Vec<u8>, net: &Network, entries: &[Bounds]) -> Result<(), AllocError>
    requires { length entries.now ≡ length (parts_of net.now.wires) }
    ensures text { OnOk result (text.new.items ≡ text.old.items ++ word_lines (entry_lines net.now 0 entries.now)) }
    ensures valid { IsValid net.now }
{
    for k in 0..net.parts().len() {
        push_entry(text, net, k, entries[k])?;
    }
    Ok(())
}

// Appends the line of part number `k`, with its line feed.
fn push_entry(text: &mut Vec<u8>, net: &Network, k: usize, entry: Bounds) -> Result<(), AllocError>
    requires { k < length (parts_of net.now.wires) }
    ensures { OnOk result (text.new.items ≡ text.old.items ++ (spaced (entry_words net.now k entry) ++ 10 ∷ [])) }
{
    text.extend_from_slice(b"part ")?;
    push_part_name(text, net, k)?;
    push_number(text, entry.lo)?;
    push_number(text, entry.hi)?;
    push_number(text, entry.err)?;
    text.push(b'\n')?;
    Ok(())
}

// Appends a number behind a space.
fn push_number(text: &mut Vec<u8>, number: i64) -> Result<(), AllocError>
    ensures { OnOk result (text.new.items ≡ text.old.items ++ 32 ∷ signed_decimal number) }
{
    let mut digits = Buffer::new();
    text.push(b' ')?;
    text.extend_from_slice(digits.format(number).as_bytes())
}
