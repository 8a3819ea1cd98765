//! A law of impaired lanes. A function that does nothing states its law in its contract.
ghost use Rattle.impaired_image.specs.ImpairedImage.{ImpairedIsAnImage};

/// What an impairer without drops makes of sent lanes is an image of them.
pub fn impaired_is_an_image()
    ensures { ImpairedIsAnImage }
{}
