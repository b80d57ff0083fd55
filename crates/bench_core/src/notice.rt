// What is said of a refusal.
ghost use Rattle.bench_core.specs.Statuses.{IsRefusalStatus};

/// A refusal that the files alone decide: its status, which is one of 3 to 6 and 9 to 12, and the
/// line that is said of it, with its line feed.
#[derive(Drop)]
pub(crate) struct Notice {
    pub status: u8,
    pub text: Vec<u8>,
    ghost decided: { IsRefusalStatus status },
}
