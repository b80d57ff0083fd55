// The steps of commands: files read whole, their texts read, certificates accepted.
ghost use Rattle.std.specs.Prelude.{◌≡◌, ◌^◌, ◌≤◌, ◌<◌, ◌∷◌, [], length, Ok, IfOk, IfErr, OnOk, vec_items};
ghost use Rattle.std.specs.Option.{ForSome};
ghost use Rattle.fx_io.specs.Whole.{IsReadOut};
ghost use Rattle.bench_core.specs.Calls.{SinkCall, shelf_call};
ghost use Rattle.cert_checker.specs.PartNames.{part_name};
ghost use Rattle.bench_core.specs.HowItEnds.{EndsUnmade, ReadsAs, RefusesWith, Makes, HasEndingCause, HasStepCause};
ghost use Rattle.bench_core.specs.RefusalTexts.{not_accepted};
ghost use Rattle.bench_core.specs.FilesRead.{file_read, network_in, network_read, over_two_files};
ghost use Rattle.bench_core.specs.CheckAnswer.{certificate_in, acceptance};
ghost use Rattle.net_model.specs.Smooth.{IsSmooth};
ghost use Rattle.net_model.specs.Wires.{parts_of};

use super::endings::Ending;
use super::fault_refusals::{refuse_certificate, refuse_network};
use super::refusals::{refuse, unread};
use cert_checker::{CertError, Rejected, check, part_name, read_cert};
use cert_rules::Certificate;
use fx_io::{ReadAllFault, Shelf, read_all};
use net_model::{Network, PartNo};
use net_text::{NetError, read_net};
use std::alloc::Global;

/// The most bytes of a network's text and of a certificate's text.
pub(crate) const TEXT_LIMIT: usize = 0x10_0000;

/// The network of a file, and all bytes of a second file, which has at most so many.
pub(crate) fn network_and_bytes<S: Shelf>(
    alloc: Global,
    shelf: &mut S,
    net: &str,
    other: &str,
    limit: usize,
) -> Result<(Network, Vec<u8>), Ending>
    requires { limit ≤ 2 ^ 32 }
    ensures network { ForSome (S.files shelf.old)
        (λ files. IfOk result (λ both. network_read files net.now ≡ Ok both.0)) }
    ensures bytes { ForSome (S.files shelf.old)
        (λ files. IfOk result (λ both. file_read files other.now limit ≡ Ok both.1.items)) }
    ensures stopped { ForSome (S.files shelf.old) (λ files.
        IfErr result (EndsUnmade (over_two_files files net.now other.now limit) (S.failed shelf.new))) }
    ensures cause { (out : SinkCall) → HasEndingCause (net.now ∷ other.now ∷ [])
        (shelf_call S.faults S.failed shelf.old shelf.new) out result }
    ensures finished { OnOk result (IsReadOut (S.files shelf.old) (S.left shelf.new)) }
    ensures bound { IfOk result (λ both. length both.1.items ≤ limit) }
{
    match network_at(alloc, shelf, net) {
        Ok(network) => match read_file(alloc, shelf, other, limit) {
            Ok(bytes) => Ok((network, bytes)),
            Err(ending) => Err(ending),
        },
        Err(ending) => Err(ending),
    }
}

// The network of a file.
#[tactic(auto, using(crate::proofs::StepLaws::stops_at_first, crate::proofs::StepLaws::gives_from_parts), unfolding(crate::specs::FilesRead::network_read))]
fn network_at<S: Shelf>(alloc: Global, shelf: &mut S, name: &str) -> Result<Network, Ending>
    ensures told { ForSome (S.files shelf.old)
        (λ files. ReadsAs (λ n. n) (network_read files name.now) result) }
    ensures cause { HasStepCause name.now
        (shelf_call S.faults S.failed shelf.old shelf.new) result }
    ensures files { S.files shelf.new ≡ S.files shelf.old }
{
    match read_file(alloc, shelf, name, TEXT_LIMIT) {
        Ok(text) => network_of_text(alloc, name, &text),
        Err(ending) => Err(ending),
    }
}

// The network of a file's bytes.
#[tactic(auto, using(crate::proofs::StepLaws::stops_at_refusal), unfolding(crate::specs::FilesRead::network_in))]
fn network_of_text(alloc: Global, name: &str, text: &[u8]) -> Result<Network, Ending>
    requires { length text.now < 2 ^ 32 }
    ensures { Makes (λ n. n) (network_in name.now text.now) result }
{
    match read_net(alloc, text) {
        Ok(network) => Ok(network),
        Err(NetError::Fault(fault)) => Err(refuse_network(alloc, name, fault)),
        Err(NetError::OutOfMemory) => Err(Ending::OutOfMemory),
    }
}

/// The certificate of a file's bytes, for this network: one entry for each part.
#[tactic(auto, using(crate::proofs::StepLaws::stops_at_refusal), unfolding(crate::specs::CheckAnswer::certificate_in))]
pub(crate) fn certificate_of_text(
    alloc: Global,
    name: &str,
    network: &Network,
    text: &[u8],
) -> Result<Certificate, Ending>
    requires { length text.now < 2 ^ 32 }
    ensures made { Makes (λ c. c) (certificate_in network.now name.now text.now) result }
    ensures complete { IfOk result (λ cert. length cert ≡ length (parts_of network.now.wires)) }
{
    match read_cert(alloc, network, text) {
        Ok(certificate) => Ok(certificate),
        Err(CertError::Fault(fault)) => Err(refuse_certificate(alloc, name, fault)),
        Err(CertError::OutOfMemory) => Err(Ending::OutOfMemory),
    }
}

/// Tests that no part rejects the certificate.
#[tactic(auto, using(crate::proofs::StepLaws::stops_at_refusal, cert_rules::proofs::AcceptanceLaws::none_rejected_from_accepts), unfolding(crate::specs::CheckAnswer::acceptance))]
pub(crate) fn accept(
    alloc: Global,
    network: &Network,
    certificate: &Certificate,
) -> Result<(), Ending>
    requires { length certificate.now ≡ length (parts_of network.now.wires) }
    ensures { Makes (λ _. tt) (acceptance network.now certificate.now) result }
{
    is_smooth(network);
    match check(network, certificate) {
        Ok(_) => Ok(()),
        Err(Rejected { part }) => Err(refuse_part(alloc, network, part)),
    }
}

// The part that fails first isn't accepted.
fn refuse_part(alloc: Global, network: &Network, part: PartNo) -> Ending
    requires { part.0 < length (parts_of network.now.wires) }
    ensures { RefusesWith (not_accepted (part_name network.now part.0)) result }
{
    match part_name(alloc, network, part) {
        Ok(name) => refuse(alloc, 6, b"not accepted: ", &name),
        Err(_) => Ending::OutOfMemory,
    }
}

// Does nothing: its clause is that certificates are for the network, since none that is valid has a remainder.
#[tactic(auto, using(cert_rules::proofs::AcceptanceLaws::all_are_smooth))]
fn is_smooth(network: &Network)
    ensures { IsSmooth network.now.wires }
{
    let _ = network.wires();
}

// All bytes of a file, which has at most so many.
fn read_file<S: Shelf>(
    alloc: Global,
    shelf: &mut S,
    name: &str,
    limit: usize,
) -> Result<Vec<u8>, Ending>
    requires { limit ≤ 2 ^ 32 }
    ensures told { ForSome (S.files shelf.old)
        (λ files. ReadsAs vec_items (file_read files name.now limit) result) }
    ensures cause { HasStepCause name.now
        (shelf_call S.faults S.failed shelf.old shelf.new) result }
    ensures files { S.files shelf.new ≡ S.files shelf.old }
    ensures finished { OnOk result (IsReadOut (S.files shelf.old) (S.left shelf.new)) }
    ensures bound { IfOk result (λ bytes. length bytes.items ≤ limit) }
{
    match read_all(alloc, shelf, name, limit) {
        Ok(bytes) => Ok(bytes),
        Err(ReadAllFault::ReadFault) => Err(unread(alloc, name)),
        Err(ReadAllFault::TooLong) => Err(refuse(alloc, 9, b"too long ", name.as_bytes())),
        Err(ReadAllFault::OutOfMemory) => Err(Ending::OutOfMemory),
    }
}
