// A touch: the chip and the time, as the block that holds them.
pub type Touch = [u8; 16];

// The text of a touch.
pub(crate) fn text(touch: &Touch) -> &str {
    str::from_utf8(touch).unwrap_or("no text")
}
