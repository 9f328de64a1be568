//! What pictures begin with.

ghost use Rattle.std.specs.Prelude.{◌≡◌, ◌++◌, OnOk, string_bytes};
ghost use Rattle.racp_charts.specs.PictureParts.{group_begin, page_element, picture_begin};

use std::alloc::AllocError;

/// Adds the beginning of a picture of this width and height, whose drawings begin so far from the left.
#[tactic(auto, unfolding(crate::specs::PictureParts::picture_begin))]
pub(crate) fn push_begin(
    text: &mut String,
    left: u32,
    width: u32,
    height: u128,
) -> Result<(), AllocError>
    ensures { OnOk result (string_bytes text.new ≡ string_bytes text.old ++ picture_begin left width height) }
{
    write!(
        text,
        "<svg xmlns=\"http://www.w3.org/2000/svg\" \
         viewBox=\"{left} 0 {width} {height}\" width=\"{width}\" height=\"{height}\">\n"
    )
}

/// Adds what is behind a picture of this height.
#[tactic(auto, unfolding(crate::specs::PictureParts::page_element))]
pub(crate) fn push_page(text: &mut String, height: u128) -> Result<(), AllocError>
    ensures { OnOk result (string_bytes text.new ≡ string_bytes text.old ++ page_element height) }
{
    write!(
        text,
        "<rect class=\"page\" width=\"1000\" height=\"{height}\"/>\n"
    )
}

/// Adds the beginning of what is drawn below this height.
#[tactic(auto, unfolding(crate::specs::PictureParts::group_begin))]
pub(crate) fn push_group(text: &mut String, top: u128) -> Result<(), AllocError>
    ensures { OnOk result (string_bytes text.new ≡ string_bytes text.old ++ group_begin top) }
{
    write!(text, "<g transform=\"translate(0 {top})\">\n")
}
