//! What holds of followers, whatever they ask and when.

ghost use Rattle.cy_feeds.specs.Following.{CopiesChange, FollowersGoOn, NewFeedsTell, PushedFeedsTell, QuietFeedsTell};

/// A follower whose copy is right at a tick, and who takes over all entries above it one after the other, has the rows of now.
/// A copy of the rows before an entry holds what the entry removes, and then counts as the rows after it do.
pub fn followers_go_on()
    ensures go_on { FollowersGoOn }
    ensures change { CopiesChange }
{}

/// What a feed says of its view: a new one what the rows are at its tick; one to which the difference of the next tick is pushed
/// what they are then, also where the oldest entry went; and one to which nothing is pushed that the bag of rows stayed.
pub fn feeds_tell()
    ensures new { NewFeedsTell }
    ensures pushed { PushedFeedsTell }
    ensures quiet { QuietFeedsTell }
{}
