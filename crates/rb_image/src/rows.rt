//! Worked bytes: what the definitions compute to.

ghost use Rattle.rb_image.specs.Rows.{GroupBytes, InstrBytes, NumberBytes, PieceBytes, SmallestImage, SmallestLength};

/// Numbers, texts, instructions and a conversation.
pub fn bytes_of_pieces()
    ensures numbers { NumberBytes }
    ensures pieces { PieceBytes }
    ensures instrs { InstrBytes }
    ensures group { GroupBytes }
{}

/// The image of the smallest program.
pub fn bytes_of_images()
    ensures smallest { SmallestImage }
    ensures length { SmallestLength }
{}
