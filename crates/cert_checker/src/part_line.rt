// One line of a certificate: what it gives, or the first of its tests that fails.
ghost use Rattle.std.specs.Prelude.{◌≡◌, pos, negsuc, ◌-◌, ◌^◌, ◌<ℤ◌};
ghost use Rattle.text_words.specs.Lines.{words_of};
ghost use Rattle.cert_checker.specs.CertificateText.{names_next, number_within, part_line};

use crate::faults::CertKind;
use crate::part_naming::is_part_name;
use cert_rules::Bounds;
use net_model::Network;
use text_words::{count_words, demand, is_literal, number, word_at};

/// What a bound or an error may be at most; a bound is at least the negative of it.
const FARTHEST: i64 = 1 << 62;

/// The entry that `part NAME LO HI ERR` says, where `k` parts stand above.
#[tactic(auto, unfolding(crate::specs::CertificateText::part_line))]
pub fn part_line(net: &Network, k: usize, line: &[u8]) -> Result<Bounds, CertKind>
    ensures { result ≡ part_line net.now k (words_of line.now) }
{
    let is_part = is_literal(word_at(line, 0), b"part") && count_words(line) == 5;
    demand!(is_part, CertKind::BadLine);
    demand!(names_next(net, k, word_at(line, 1)), CertKind::WrongPart);
    let lo = number_within(-FARTHEST, FARTHEST, word_at(line, 2))?;
    let hi = number_within(-FARTHEST, FARTHEST, word_at(line, 3))?;
    let err = number_within(0, FARTHEST, word_at(line, 4))?;
    demand!(lo <= hi, CertKind::EmptyRange);
    Ok(Bounds { lo, hi, err })
}

// Whether the name is that of the part behind the `k` that stand above.
fn names_next(net: &Network, k: usize, name: &[u8]) -> bool
    ensures { result ≡ names_next net.now k name.now }
{
    k < net.parts().len() && is_part_name(net, k, name)
}

// The number of a word, which has to lie between two ends.
#[tactic(auto, using(crate::proofs::HeldWithin::number_within_held))]
fn number_within(least: i64, greatest: i64, word: &[u8]) -> Result<i64, CertKind>
    requires above_least { negsuc (2 ^ 63 - 1) <ℤ least }
    requires below_greatest { greatest <ℤ pos (2 ^ 63 - 1) }
    ensures { result ≡ number_within least greatest word.now }
{
    let Some(value) = number(word) else {
        return Err(CertKind::BadNumber);
    };
    demand!(least <= value && value <= greatest, CertKind::BadNumber);
    Ok(value)
}
