// A walk over a text.
ghost use Rattle.std.specs.Prelude.{◌≤◌, length};

mod walk;

// A text, and how far it has been read.
#[derive(Drop)]
pub struct Reader<'a> {
    text: &'a [u8],
    at: usize,
    ghost within: { at ≤ length text.now },
}
