// Laws of the layout. The functions have no code; their contracts are proved of the definitions.
ghost use Rattle.seg_layout.specs.Laws.{NumbersTellPositions, NearPositionsDiffer, ReleasedServesNext, FirstsAreOne, FirstsAreInside, LengthsAreBounded, PowersOfTwo};

/// A number tells whether a slot is free or published and for which position, so none serves two:
/// a slot that shows the published number of a position shows no other position, and no free one.
pub fn a_number_tells_its_position()
    ensures { NumbersTellPositions }
{}

/// Two different positions less than a segment's length apart lie in different slots. So more
/// untaken items than a segment has slots do not lie in one segment.
pub fn near_positions_have_slots_of_their_own()
    ensures { NearPositionsDiffer }
{}

/// The next position in a slot is the one a length later. A slot has one first position from a start
/// on, and that is less than a length from the start.
pub fn released_slots_serve_the_next_turn()
    ensures next { ReleasedServesNext }
    ensures one { FirstsAreOne }
    ensures inside { FirstsAreInside }
{}

/// A segment's length is a power of two from 2 to 1,024, and the least a segment can have is the
/// first length. A power of two is one in which one bit is set.
pub fn segment_lengths_are_bounded()
    ensures bounds { LengthsAreBounded }
    ensures powers { PowersOfTwo }
{}
