// How far a feed has come.
ghost use Rattle.std.specs.Prelude.{◌≡◌};
ghost use Rattle.disp_outside.specs.FeedState.{is_over, state_after};

use crate::FeedLine;

/// Whether a feed goes on.
#[derive(Clone, Copy, Debug, PartialEq, Eq)]
pub enum FeedState {
    Open,
    Ended,
    Broken,
}

impl FeedState {
    /// The feed has answered that it ends, or that it failed.
    pub fn is_over(self) -> bool
        ensures { result ≡ is_over self }
    {
        match self {
            FeedState::Open => false,
            FeedState::Ended => true,
            FeedState::Broken => true,
        }
    }

    /// How far a feed has come with this answer.
    pub fn after(answer: FeedLine) -> Self
        ensures { result ≡ state_after answer }
    {
        match answer {
            FeedLine::Got => FeedState::Open,
            FeedLine::Long => FeedState::Open,
            FeedLine::End => FeedState::Ended,
            FeedLine::Failed => FeedState::Broken,
        }
    }
}
