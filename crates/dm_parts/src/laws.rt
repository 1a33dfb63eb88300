//! What holds of the parts of a system, whatever its boot file says.
ghost use Rattle.dm_parts.specs.Laws.{FirstNames, LinksKeepToParts, PartsAreFinest};

/// Each link of a boot file that breaks no rule keeps to one part: its holder and whom it joins with its holder are of one part.
pub fn links_keep_to_parts()
    ensures { LinksKeepToParts }
{}

/// In whatever way places have sides: where each link keeps to one side, so does each part. So the parts are the finest such way.
pub fn parts_are_finest()
    ensures { PartsAreFinest }
{}

/// A part is numbered by its first place.
pub fn first_names()
    ensures { FirstNames }
{}
