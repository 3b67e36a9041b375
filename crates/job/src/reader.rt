// What is still to be read of a job text. Only `Reader::of` and its other methods make one.
ghost use Rattle.std.specs.Prelude.{◌+◌, ◌≤◌, length};

mod methods;

pub use methods::LONGEST_TEXT;

// The bytes that are left, and the number of the next line.
#[derive(Clone, Copy)]
pub(crate) struct Reader<'t> {
    text: &'t [u8],
    number: u32,
    ghost few: { number + length text.now ≤ 60001 },
}
