/// What is asked of clients in a round.
#[derive(Clone, Copy, Debug)]
pub struct RoundTerms {
    /// The time, in milliseconds of one clock.
    pub now: u64,
    /// How many seconds a client on whose connection somebody is signed in has from one message to the next.
    pub idle: u32,
}
