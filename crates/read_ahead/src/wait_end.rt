/// How a wait for news ended.
#[derive(Clone, Copy)]
pub struct WaitEnd {
    /// How often something had come by then.
    pub news: u64,
    /// The time is over, and nothing came.
    pub is_over: bool,
}
