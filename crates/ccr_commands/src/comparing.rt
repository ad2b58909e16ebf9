//! At which line two texts first differ.

ghost use Rattle.std.specs.Prelude.{◌≡◌, ◌+◌, ◌<◌, ◌^◌, length};
ghost use Rattle.ccr_commands.specs.Inputs.{first_difference};

/// The line at which a text first differs from the one that is due, of lines of which the first has this number. A line
/// is compared with its LF. None where the texts are the same.
pub fn first_difference(line: u32, text: &[u8], due: &[u8]) -> Option<u32>
    requires { line + length text.now < 2 ^ 32 }
    ensures { result ≡ first_difference line text.now due.now }
{
    let (mut line, mut text, mut due) = (line, text, due);
    'bytes: while let (Some((byte, after)), Some((wanted, others))) = (
        text.split_first(),
        due.split_first(),
    ) {
        if byte != wanted {
            return Some(line);
        }
        if *byte == b'\n' {
            line += 1;
        }
        (text, due) = (after, others);
    }
    if text.is_empty() && due.is_empty() {
        None
    } else {
        Some(line)
    }
}
