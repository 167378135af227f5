// A reader borrows the text and keeps its place in it: refusals name places, which a slice of what is left would not know.
ghost use Rattle.std.specs.Prelude.{◌≤◌, length};

#[derive(Drop)]
pub struct Reader<'a> {
    pub text: &'a [u8],
    pub at: usize,
    ghost within: { at ≤ length text.now },
}
