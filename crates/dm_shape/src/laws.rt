//! What holds of the shapes of lines, whoever reads them.
ghost use Rattle.dm_shape.specs.Laws.{EndsHaveShapes, HeadsAreRead, HeadsHaveShapes, LinesHaveShapes, WordsBegin};

/// Each line of a group that is printed has a shape.
pub fn lines_have_shapes()
    ensures { LinesHaveShapes }
{}

/// So has each line at the end of a run.
pub fn ends_have_shapes()
    ensures { EndsHaveShapes }
{}

/// Whatever is read as the head of a group has a shape.
pub fn heads_have_shapes()
    ensures { HeadsHaveShapes }
{}

/// The head of a group is read as the directive that it names.
pub fn heads_are_read()
    ensures { HeadsAreRead }
{}

/// Words with which a line of a group that is printed begins have no wrong one among them.
pub fn words_begin()
    ensures { WordsBegin }
{}
