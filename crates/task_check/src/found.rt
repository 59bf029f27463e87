ghost use Rattle.std.specs.Prelude.{◌≡◌, [], ◌∷◌, Some, None, if◌then◌else◌};
ghost use Rattle.task_check.specs.NameRules.{is_declared, is_twice_named, is_unknown, is_wrong_kind, suits};

use crate::least::lesser;
use crate::meaning::Meaning;
use crate::role::Role;
use task_syntax::Name;

/// The least places at which names break their rules.
#[derive(Clone, Copy, Debug)]
pub(crate) struct Found {
    /// Rule 1.
    pub(crate) twice_named: Option<u32>,
    /// Rule 2.
    pub(crate) unknown: Option<u32>,
    /// Rule 3.
    pub(crate) wrong_kind: Option<u32>,
}

impl Found {
    ghost use Rattle.task_check.specs.Found.{found_among, joined};

    pub(crate) fn nothing() -> Found
        ensures { result ≡ found_among [] }
    {
        Found {
            twice_named: None,
            unknown: None,
            wrong_kind: None,
        }
    }

    /// Joins what a name breaks that has this meaning, where it is in scope.
    pub(crate) fn note(&mut self, name: &Name, role: Role, meaning: Option<Meaning>)
        ensures { self.new ≡ joined self.old
            (found_among (record { name = name.now; role = role; meaning = meaning } ∷ [])) }
    {
        let at = name.at;
        self.twice_named = lesser(
            self.twice_named,
            place_where(is_twice_named(role, meaning), at),
        );
        self.unknown = lesser(self.unknown, place_where(is_unknown(role, meaning), at));
        self.wrong_kind = lesser(self.wrong_kind, place_where(!suits(role, meaning), at));
    }
}

fn place_where(holds: bool, at: u32) -> Option<u32>
    ensures { result ≡ (if holds then Some at else None) }
{
    if holds { Some(at) } else { None }
}

fn is_declared(role: Role) -> bool
    ensures { result ≡ is_declared role }
{
    matches!(role, Role::Declared)
}

/// Whether a name is declared that is in scope already.
fn is_twice_named(role: Role, meaning: Option<Meaning>) -> bool
    ensures { result ≡ is_twice_named role meaning }
{
    is_declared(role) && meaning.is_some()
}

/// Whether a name is used that isn't in scope.
fn is_unknown(role: Role, meaning: Option<Meaning>) -> bool
    ensures { result ≡ is_unknown role meaning }
{
    !is_declared(role) && meaning.is_none()
}

/// Whether a name of this meaning may stand so.
fn suits(role: Role, meaning: Option<Meaning>) -> bool
    ensures { result ≡ suits role meaning }
{
    match (role, meaning) {
        (Role::Declared, _) => true,
        (Role::Plain, Some(Meaning::Scalar | Meaning::Local)) => true,
        (Role::Item, Some(Meaning::Array)) => true,
        (Role::Next, Some(Meaning::Task)) => true,
        _ => false,
    }
}
