//! The laws of images.

ghost use Rattle.rb_image.specs.Laws.{ImagesAreOfOne};

/// An image is that of one code and of its conversations alone: no two that are in range have the same bytes.
pub fn images_are_of_one()
    ensures { ImagesAreOfOne }
{}
