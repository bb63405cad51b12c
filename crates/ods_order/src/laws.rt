//! Laws about definitions. Each law is a function with an empty body.
ghost use Rattle.ods_order.specs.Laws.{CanBeLaidOut, EachByteHasASector, FirstTrackStays, LaidOutInOneWay, OwnVolumeChangesNothing, PlacesAreApart, PlacesLieInside, SectorsAreInterleaved};

/// Consecutive sectors are two apart on their track, and each track begins 6 sectors after the one before it, or 2 on an RX50.
pub fn sectors_are_interleaved()
    ensures { SectorsAreInterleaved }
{}

/// Each sector of the volume is inside the container.
pub fn places_lie_inside()
    ensures { PlacesLieInside }
{}

/// No byte belongs to two sectors of the volume.
pub fn places_are_apart()
    ensures { PlacesAreApart }
{}

/// Each byte after the first track of an RX01 or RX02, and each byte of an RX50, belongs to a sector of the volume.
pub fn each_byte_has_a_sector()
    ensures { EachByteHasASector }
{}

/// A volume of the right size can be laid out in any container, and reading the container then returns it.
pub fn can_be_laid_out()
    ensures { CanBeLaidOut }
{}

/// The new container depends only on the old container and the volume.
pub fn laid_out_in_one_way()
    ensures { LaidOutInOneWay }
{}

/// A container is unchanged if its own volume is laid out in it.
pub fn own_volume_changes_nothing()
    ensures { OwnVolumeChangesNothing }
{}

/// The first track of an RX01 or RX02 is unchanged.
pub fn first_track_stays()
    ensures { FirstTrackStays }
{}
