//! Laws of the words.

ghost use Rattle.imadg_top.specs.Headline.{AskOnce};

/// What words ask for is one thing, so a headline speaks of that and of nothing else.
pub fn one_task()
    ensures { AskOnce }
{}
