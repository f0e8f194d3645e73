// The lines of a text.
ghost use Rattle.std.specs.Prelude.{◌≡◌, ◌≤◌, length};
ghost use Rattle.meaning.specs.ChainText.{passed};
ghost use Rattle.chaintext.specs.Split.{LineEnd};

// Where the line ends that begins at a place: at its newline, or at the end of the text.
pub(crate) fn end(text: &[u8], at: usize) -> usize
    requires { at ≤ length text.now }
    ensures { LineEnd text.now at result }
{
    (at..text.len())
        .find(|i| text[*i] == b'\n')
        .unwrap_or(text.len())
}

// Empty lines and comments are passed over.
pub(crate) fn is_passed(line: &[u8]) -> bool
    ensures { result ≡ passed line.now }
{
    line.is_empty() || line[0] == b'#'
}
