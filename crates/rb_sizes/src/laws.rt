//! Laws of sizes. These functions have no body, and each promises a law.

ghost use Rattle.rb_sizes.specs.Laws.{CompiledCodeIsInRanges, ImagesAreShort};

/// All numbers of the code of an accepted source, and of its conversations, lie in the ranges that an image has room for.
pub fn compiled_code_is_in_ranges()
    ensures { CompiledCodeIsInRanges }
{}

/// The image of an accepted source is at most sixteen times as long as the source.
pub fn images_are_short()
    ensures { ImagesAreShort }
{}
