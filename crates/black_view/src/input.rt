// Where the trace stands in what `black` prints.
ghost use Rattle.std.specs.Prelude.{◌<◌, ◌↔◌, length, IsTrue, MatchOption};
ghost use Rattle.black_view.specs.Input.{Opens, HasNoTrace, IsTraceAt};

/// The first byte of the trace, which stands at the beginning of a line: the first opening brace there.
pub fn trace_at(bytes: &[u8]) -> Option<usize>
    ensures { MatchOption result (HasNoTrace bytes.now) (IsTraceAt bytes.now) }
{
    for at in 0..bytes.len() {
        if opens(bytes, at) {
            return Some(at);
        }
    }
    None
}

/// Whether a line begins at the byte, with an opening brace.
fn opens(bytes: &[u8], at: usize) -> bool
    requires { at < length bytes.now }
    ensures { IsTrue result ↔ Opens bytes.now at }
{
    bytes[at] == b'{' && (at == 0 || bytes[at - 1] == b'\n')
}
