ghost use Rattle.std.specs.Prelude.{ℕ, ◌≡◌};
ghost use Rattle.nv_memory.specs.InRange.{InRange};
ghost use Rattle.nv_memory.specs.State.{set_to, state, write_of};
ghost use Rattle.nv_memory.specs.Words.{mark, mark_seat};
ghost use Rattle.commit_log.specs.Marker.{marker_value};

use nv_memory::{Image, Write, header};

/// Which commit is under way.
#[derive(Clone, Copy, Debug, PartialEq, Eq)]
pub enum Marker {
    /// None.
    Clear,
    /// That of a task into its transaction.
    IntoTx,
    /// That of a unit into the variables.
    Unit,
    /// That of an event into the variables.
    Event,
}

/// The write that begins a commit, or ends it.
pub fn mark_write(marker: Marker) -> Write
    ensures { (n : ℕ) → result ≡ write_of n (set_to mark_seat (marker_value marker)) }
{
    let word = match marker {
        Marker::Clear => 0,
        Marker::IntoTx => 1,
        Marker::Unit => 2,
        Marker::Event => 3,
    };
    Write {
        at: header::MARK,
        word,
    }
}

impl Marker {
    /// The commit under way.
    pub fn of(image: &Image) -> Marker
        requires { InRange (state image.now) }
        ensures { mark (state image.now) ≡ marker_value result }
    {
        match image.mark() {
            0 => Marker::Clear,
            1 => Marker::IntoTx,
            2 => Marker::Unit,
            _ => Marker::Event,
        }
    }
}
