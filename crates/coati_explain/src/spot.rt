ghost use Rattle.std.specs.Prelude.{◌≡◌, ◌≤◌, ◌<◌, length};
ghost use Rattle.coati_explain.specs.Spot.{line_of, spot_at};

use coati_text::lines;

/// A line of a text and a column in it, both counted from 1. A column is a byte wide.
#[derive(Clone, Copy, Debug, PartialEq, Eq)]
pub struct Spot {
    pub line: u32,
    pub column: u32,
}

/// Where a place of the text lies.
pub(crate) fn spot_at(text: &[u8], at: u32) -> Spot
    requires within { at ≤ length text.now }
    requires small { length text.now ≤ 262144 }
    ensures spot { result ≡ spot_at text.now at }
    ensures line { 0 < result.line }
    ensures column { 0 < result.column }
{
    let mut passed = Spot { line: 1, column: 1 };
    let mut number = 1;
    let mut left = at;
    for line in lines(text) {
        if left as usize <= line.len() {
            return Spot {
                line: number,
                column: left + 1,
            };
        }
        passed = Spot {
            line: number,
            column: line.len() as u32 + 1,
        };
        left -= line.len() as u32 + 1;
        number += 1;
    }
    passed
}

/// The line of this number, without its end.
pub(crate) fn line_of(text: &[u8], number: u32) -> &[u8]
    ensures { result.now ≡ line_of text.now number }
{
    let mut left = number;
    for line in lines(text) {
        if left <= 1 {
            return line;
        }
        left -= 1;
    }
    &[]
}
