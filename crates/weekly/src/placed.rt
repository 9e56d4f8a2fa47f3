// The bytes of a body, and where in the file they start.
ghost use Rattle.std.specs.Prelude.{◌+◌, ◌^◌, ◌<◌, length};

#[derive(Clone, Copy)]
pub(crate) struct Body<'a> {
    pub(crate) bytes: &'a [u8],
    pub(crate) place: usize,
    ghost short: { place + length bytes.now < 2 ^ 32 },
}
