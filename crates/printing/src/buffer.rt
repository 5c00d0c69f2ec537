// Bytes put at the end of a buffer. Each function answers where they start, and what stands in front of them is put at the end
// of the buffer up to there.
ghost use Rattle.std.specs.Prelude.{[], ◌∷◌, ◌<◌, ◌≤◌, length};
ghost use Rattle.printing.specs.Buffers.{Ends};

// A byte.
pub fn put_byte(out: &mut [u8], byte: u8) -> usize
    requires { 0 < length out.old }
    ensures { Ends (byte ∷ []) out.old result out.new }
{
    let start = out.len() - 1;
    out[start] = byte;
    start
}

// A text.
pub fn put_text(out: &mut [u8], text: &[u8]) -> usize
    requires { length text.now ≤ length out.old }
    ensures { Ends text.now out.old result out.new }
{
    let start = out.len() - text.len();
    out[start..].copy_from_slice(text);
    start
}
