//! Laws of phased lanes. A function that does nothing states its law in its contract.
ghost use Rattle.phased_image.specs.PhasedImage.{PhasedIsAnImage, HeadlineOfPhased};
ghost use Rattle.phased_image.specs.PhasedWrong.{PhasesKeepWrong};

/// The phased lanes of an image are an image.
pub fn phased_is_an_image()
    ensures { PhasedIsAnImage }
{}

/// The headline holds for the phased lanes of an image whenever its own premises do.
pub fn headline_of_phased()
    ensures { HeadlineOfPhased 15 }
{}

/// Phases keep the wrong symbols of each pair that lies behind the begin of every lane.
pub fn phases_keep_wrong()
    ensures { PhasesKeepWrong }
{}
