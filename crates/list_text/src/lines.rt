// The lines of a text.
ghost use Rattle.std.specs.Prelude.{◌≡◌, ◌+◌, ◌≤◌, min, length, drop};
ghost use Rattle.list_text.specs.Lines.{first_line, after_line};

// The first line of a text, without its line feed.
pub fn first_line(text: &[u8]) -> &[u8]
    ensures { result.now ≡ first_line text.now }
{
    match text.iter().position(|&b| b == b'\n') {
        Some(end) => &text[..end],
        None => text,
    }
}

// The first line, and what follows its line feed.
pub fn split_line(text: &[u8]) -> (&[u8], &[u8])
    ensures line { result.0.now ≡ first_line text.now }
    ensures rest { result.1.now ≡ after_line text.now }
{
    let line = first_line(text);
    (line, text.get(line.len() + 1..).unwrap_or(&[]))
}
