//! What holds of every printed run, by its definition alone.

ghost use Rattle.cy_shell.specs.Runs.{HeadlineIsPrinted};

use cy_engine::laws::headline;

/// The headline of what is printed: every printed run from the beginning is a run of a new engine over the lines that it was sent, whose
/// answers and entries are what is printed, the headline holds of it, and through its lines the views are kept up as the engine promises.
pub fn headline_is_printed()
    ensures { HeadlineIsPrinted }
{
    headline();
}
