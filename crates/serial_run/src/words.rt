ghost use Rattle.std.specs.Prelude.{◌≡◌, ◌≤◌, IfOk, length};
ghost use Rattle.serial_run.specs.Runs.{marks_of};
ghost use Rattle.serial_run.specs.Touched.{TellsWords};

use coati_word::OutOfMemory;
use std::alloc::Global;
use std::marker::Model;

/// Words by their numbers. A contract sees the list of these.
#[derive(Debug, Drop)]
pub struct Words {
    items: Vec<u16>,
}

impl Model for Words {
    ghost use Rattle.std.specs.Prelude.{ℕ, List};

    ghost Value = { List ℕ };

    ghost view = { λ words. words.items.items };
}

impl Words {
    /// The marked words, of which there are at most `count`.
    pub(crate) fn marked(alloc: Global, marks: &[bool], count: u16) -> Result<Words, OutOfMemory>
        requires { length marks.now ≤ count }
        ensures { IfOk result (TellsWords (marks_of marks.now)) }
    {
        let mut items = Vec::new(alloc);
        for word in 0..count {
            if is_marked(marks, word) {
                items.push(word)?;
            }
        }
        Ok(Words { items })
    }

    /// The numbers.
    pub fn as_slice(&self) -> &[u16]
        ensures { result.now ≡ self.now }
    {
        self.items.as_slice()
    }
}

fn is_marked(marks: &[bool], word: u16) -> bool
    ensures { result ≡ marks_of marks.now word }
{
    marks.get(usize::from(word)).copied().unwrap_or(false)
}
