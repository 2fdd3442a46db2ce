// Laws of what is put and taken, and of places that are attached.
ghost use Rattle.vs_desk.specs.Laws.{PutsNothing, PutsInParts, TakesNothing, TakesInParts, OtherPlacesStay, EachPlaceIsAttached, NextPlaceIsAttached, NoCallFailed, StaysThenFails, FailsThenStays, FailsAgain};

/// Putting no bytes changes nothing, and bytes put at a place in two parts are put as one.
pub fn put_law()
    ensures nothing { PutsNothing }
    ensures parts { PutsInParts }
{}

/// Taking no bytes changes nothing, and bytes taken at a place in two parts are taken as one.
pub fn take_law()
    ensures nothing { TakesNothing }
    ensures parts { TakesInParts }
{}

/// Of places that are attached one behind the other each is attached to its own path, one more path is attached at the next place, and
/// nothing else of a register changes.
pub fn attach_law()
    ensures others { OtherPlacesStay }
    ensures each { EachPlaceIsAttached }
    ensures next { NextPlaceIsAttached }
    ensures quiet { NoCallFailed }
{}

/// Of calls one behind the other that fail alone, at places other than 0, the last one is told, and all of them are counted.
pub fn fail_law()
    ensures first { StaysThenFails }
    ensures last { FailsThenStays }
    ensures again { FailsAgain }
{}
