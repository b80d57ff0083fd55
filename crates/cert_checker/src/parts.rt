// The part of a number.
ghost use Rattle.std.specs.Prelude.{◌≡◌, ◌<◌, length};
ghost use Rattle.net_model.specs.Wires.{parts_of};
ghost use Rattle.cert_rules.specs.Acceptance.{part_at};

use net_model::{Network, Part};

/// Part number `k` of a network, from 0.
pub(crate) fn part_at(net: &Network, k: usize) -> Part
    requires { k < length (parts_of net.now.wires) }
    ensures part { result ≡ part_at net.now k }
    ensures wire { result.wire.0 < length net.now.wires }
{
    net.parts()[k]
}
