use disp_model::{Problem, Settings};

/// The caller of the first searcher. The callers below are feeds.
pub const SEARCHERS_FROM: u32 = 256;

/// What a board is given once, in clauses alone. No value of it is made.
pub struct Terms {
    pub problem: Problem,
    pub settings: Settings,
    pub feeds: u32,
    pub searchers: u32,
}
