use session_opening::Config;

/// What a session object says.
#[derive(Drop)]
pub struct SessionObject {
    /// What a session opens with.
    pub config: Config,
    /// How many visits a solver's call may make.
    pub budget: u64,
}
