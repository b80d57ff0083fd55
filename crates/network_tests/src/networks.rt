// Networks of texts.

use net_model::Network;
use net_text::read_net;
use std::alloc::Global;
use std::test::Fail;

// The network of a text that is short enough to be read.
pub(crate) fn network(alloc: Global, text: &[u8]) -> Result<Network, Fail> {
    if text.len() < 1000 {
        Ok(read_net(alloc, text)?)
    } else {
        Err("a text too long for a test")?
    }
}
