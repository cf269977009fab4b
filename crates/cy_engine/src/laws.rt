//! What holds of every run, by the step relation alone.

ghost use Rattle.cy_engine.specs.Followers.{EntriesCanBeTaken, FollowersAgree};
ghost use Rattle.cy_engine.specs.Headline.{EntriesAreExact, HeadlineHolds};
ghost use Rattle.cy_engine.specs.KeptRuns.{RefusedLinesKeepUpkeep};
ghost use Rattle.cy_engine.specs.Runs.{IsDetermined, RefusedLinesLeaveNoTrace};

use cy_feeds::laws::{feeds_tell, followers_go_on};
use cy_oneshot_meaning::laws::view_queries;
use cy_parser::trees_and_texts;
use cy_values::row_order_laws;

/// What becomes of a line is determined, but for what is free: whether memory runs out, or rows are too many for the upkeep of views, the parser's
/// choice among its faults, and the numbers of steps.
pub fn determined()
    ensures { IsDetermined }
{
    trees_and_texts();
    row_order_laws();
}

/// Refused lines leave no trace: of two runs from one state, one over lines and one over those of them that the first did not
/// refuse, the lines that both have are answered alike, make the same entries and lead to the same state. Nor do they in how views are kept up.
pub fn no_trace()
    ensures runs { RefusedLinesLeaveNoTrace }
    ensures upkeep { RefusedLinesKeepUpkeep }
{
    determined();
}

/// The headline, of every run from an empty engine; `answer_all` has it as a clause of its own. The entries of each line are the exact
/// differences that it makes in the rows of the views.
pub fn headline()
    ensures holds { HeadlineHolds }
    ensures entries { EntriesAreExact }
{
    view_queries();
    no_trace();
}

/// Followers agree. In every run from an empty engine, whatever sessions its lines came from, a follower that polls a view by its name,
/// with the tick of its copy, has after each answered poll exactly the rows that the view has then.
pub fn followers()
    ensures { FollowersAgree }
{
    followers_go_on();
    feeds_tell();
}

/// What a follower is answered meets what `cy_feeds::apply` asks of its copy and of each entry. In every run from an empty engine, whatever
/// sessions its lines came from, copy and entries are in canonical order, what an entry removes is in the copy, and no row counts more than
/// 2^62 - 1 after it.
pub fn entries_can_be_taken()
    ensures { EntriesCanBeTaken }
{
    followers_go_on();
    feeds_tell();
}
