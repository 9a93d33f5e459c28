// A pen over a caller's buffer, which may be too short.
ghost use Rattle.std.specs.Prelude.{◌<◌, ◌^◌, length};

// Where the pen writes next. It writes as far as the buffer reaches, and goes on counting past its end, so that a pen over an empty
// buffer counts what another one writes. The places end at the last `usize`; no buffer is so long.
// Not a `fmt::Write`: what `write!` promises holds only where no error came, and says nothing of the buffer where one did.
#[derive(Drop)]
pub struct Pen<'a> {
    pub(crate) out: &'a mut [u8],
    pub(crate) at: usize,
    ghost placed: { at < 2 ^ 64 },
    ghost short: { length out.now < 2 ^ 64 },
}
