//! What processes recover together: rejections, one after another, test lines, the messages that are seen and the room for more, the links of
//! the turns that were kept, and which turns survive.
#![tactic(auto)]

pub mod all_links;
pub mod cascade;
pub mod channels;
pub mod innermost;
pub mod links;
pub mod parts;
pub mod survivors;
pub mod test_line;
