//! What a worker does beyond the calls and resets of its clients.

/// What a worker does beyond the calls and resets of its clients.
#[derive(Clone, Copy, Debug, PartialEq, Eq, Drop)]
pub struct ClientOptions {
    /// Whether the launcher limits the time of each call, and gets a word before and after it.
    pub limits_calls: bool,
    /// Whether the line of a reset has its number.
    pub numbers_runs: bool,
    /// How many milliseconds a reset waits after a run in which a call had an unknown outcome or ended its client.
    pub settle_milliseconds: u64,
}

impl ClientOptions {
    /// Nothing beyond calls and resets.
    pub const NONE: ClientOptions = ClientOptions {
        limits_calls: false,
        numbers_runs: false,
        settle_milliseconds: 0,
    };
}
