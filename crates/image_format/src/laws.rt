//! What holds of all images.
ghost use Rattle.image_format.specs.Laws.{ReadingLaw, EmptyLaw, FittingLaw, ImagingLaw, UniqueLaw, RoomLaw};

/// What is read is an image whose parts fit, and such an image is read.
pub fn images_are_read()
    ensures { ReadingLaw }
{}

/// The image of the empty desktop has 30 bytes, 27 in the versions whose columns have one track, and they are read as
/// that image.
pub fn empty_image()
    ensures { EmptyLaw }
{}

/// The parts of a desktop that holds together fit.
pub fn desktops_fit()
    ensures { FittingLaw }
{}

/// Two desktops that hold together have the same parts only if they are one.
pub fn parts_make_one_desktop()
    ensures { ImagingLaw }
{}

/// In a version bytes are the image of one desktop at most.
pub fn one_desktop()
    ensures { UniqueLaw }
{}

/// An image has room in a slot of a store, after the characters that fill no sector: a checkpoint is never refused for
/// want of room.
pub fn images_have_room()
    ensures { RoomLaw }
{}
