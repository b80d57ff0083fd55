// The command `check NET CERT`.
ghost use Rattle.std.specs.Prelude.{◌≡◌, ◌<◌, ◌^◌, ℕ, List, [], ◌∷◌, length, OnOk};
ghost use Rattle.std.specs.Option.{ForSome};
ghost use Rattle.fx_io.specs.Whole.{IsReadOut};
ghost use Rattle.net_model.specs.Wires.{parts_of};
ghost use Rattle.bench_core.specs.Calls.{ShelfCall, Writes, sink_call, shelf_call};
ghost use Rattle.bench_core.specs.CheckAnswer.{check_answer, check_bytes, check_entries};
ghost use Rattle.bench_core.specs.HowItEnds.{Ends, HasEndingCause, WhereUnread};

use super::endings::Ending;
use super::refusals::print;
use super::steps::{TEXT_LIMIT, accept, certificate_of_text, network_and_bytes};
use cert_rules::Certificate;
use fx_io::{Shelf, Sink};
use net_model::Network;
use std::alloc::Global;

/// Reads the network and its certificate, and prints `accepted` where the certificate is.
pub(crate) fn check<S: Shelf, O: Sink>(
    alloc: Global,
    net: &str,
    cert: &str,
    shelf: &mut S,
    out: &mut O,
) -> Result<(), Ending>
    ensures told { ForSome (S.files shelf.old)
        (λ files. Ends (check_answer files net.now cert.now) (S.failed shelf.new)
        (sink_call O.written O.faults out.old out.new) result) }
    ensures cause { HasEndingCause (net.now ∷ cert.now ∷ [])
        (shelf_call S.faults S.failed shelf.old shelf.new)
        (sink_call O.written O.faults out.old out.new) result }
    ensures unread { WhereUnread result (Writes (sink_call O.written O.faults out.old out.new) []) }
    ensures finished { OnOk result (IsReadOut (S.files shelf.old) (S.left shelf.new)) }
{
    match network_and_bytes(alloc, shelf, net, cert, TEXT_LIMIT) {
        Ok((network, text)) => certify(alloc, &network, cert, &text, out),
        Err(ending) => Err(ending),
    }
}

// Reads the certificate of this network from its text, and prints `accepted` where it is.
fn certify<O: Sink>(
    alloc: Global,
    network: &Network,
    cert: &str,
    text: &[u8],
    out: &mut O,
) -> Result<(), Ending>
    requires { length text.now < 2 ^ 32 }
    ensures told { (failed : List ℕ) → Ends (check_bytes cert.now network.now text.now) failed
        (sink_call O.written O.faults out.old out.new) result }
    ensures cause { (shelf : ShelfCall) → HasEndingCause [] shelf
        (sink_call O.written O.faults out.old out.new) result }
    ensures unread { WhereUnread result ⊥ }
{
    match certificate_of_text(alloc, cert, network, text) {
        Ok(certificate) => tell(alloc, network, &certificate, out),
        Err(ending) => Err(ending),
    }
}

// Prints `accepted` where the certificate is.
#[tactic(auto, using(crate::proofs::EndingLaws::stops_inside, crate::proofs::EndingLaws::goes_inside, crate::proofs::EndingLaws::ends_printed, crate::proofs::EndingLaws::cause_inside, crate::proofs::EndingLaws::cause_of_printing), unfolding(crate::specs::CheckAnswer::check_entries))]
fn tell<O: Sink>(
    alloc: Global,
    network: &Network,
    certificate: &Certificate,
    out: &mut O,
) -> Result<(), Ending>
    requires { length certificate.now ≡ length (parts_of network.now.wires) }
    ensures told { (failed : List ℕ) → Ends (check_entries network.now certificate.now) failed
        (sink_call O.written O.faults out.old out.new) result }
    ensures cause { (shelf : ShelfCall) → HasEndingCause [] shelf
        (sink_call O.written O.faults out.old out.new) result }
    ensures unread { WhereUnread result ⊥ }
{
    accept(alloc, network, certificate)?;
    print(out, b"accepted\n")
}
