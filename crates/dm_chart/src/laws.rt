//! What holds of every picture.
ghost use Rattle.dm_chart.specs.Laws.{ArrowsArePuts, PutsHaveArrows};

/// Each message that is put has one arrow, and each arrow is a message that is put.
pub fn arrows_are_puts()
    ensures { ArrowsArePuts }
{}

/// Of all messages that a run puts the first have an arrow in the picture of all its groups, and the others are counted as
/// left out.
pub fn puts_have_arrows()
    ensures { PutsHaveArrows }
{}
