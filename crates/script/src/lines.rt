// A script is read line by line:
//
//     for line in Lines::of(script) {
//         ..
//     }
ghost use Rattle.std.specs.Prelude.{◌≡◌, ◌+◌, ◌≤◌, length, drop};
ghost use Rattle.std.specs.Iterator.{YieldsFirstRef, item_count};
ghost use Rattle.script.specs.Lines.{lines, before_newline, first_line};

// The lines of a script, one after the other.
#[derive(Drop)]
pub struct Lines<'a> {
    rest: &'a [u8],
}

impl<'a> Lines<'a> {
    // The lines of this script, none of them read yet.
    pub fn of(script: &'a [u8]) -> Lines<'a>
        ensures { result.rest.now ≡ script.now }
    {
        Lines { rest: script }
    }
}

impl<'a> Iterator for Lines<'a> {
    type Item = &'a [u8];

    ghost next_gives = { YieldsFirstRef (λ s. lines s.rest.now) };

    ghost remaining = { item_count (λ s. lines s.rest.now) };

    fn next(&mut self) -> Option<&'a [u8]> {
        if self.rest.is_empty() {
            return None;
        }
        let line = first_line(self.rest);
        self.rest = after_line(self.rest, line.len());
        Some(line)
    }
}

// The place of the first newline, or the end.
fn line_end(script: &[u8]) -> usize
    ensures value { result ≡ before_newline script.now }
    ensures within { result ≤ length script.now }
{
    let newline = script.iter().position(|code| *code == b'\n');
    newline.unwrap_or(script.len())
}

// The first line of a script, without its newline.
pub fn first_line<'a>(script: &'a [u8]) -> &'a [u8]
    ensures { result.now ≡ first_line script.now }
{
    &script[..line_end(script)]
}

// What follows a first line that ends at the place `end`, and its newline.
pub fn after_line<'a>(script: &'a [u8], end: usize) -> &'a [u8]
    ensures { result.now ≡ drop (end + 1) script.now }
{
    if end < script.len() {
        &script[end + 1..]
    } else {
        &[]
    }
}
