//! The members of a text that says what is asked of an update.

ghost use Rattle.std.specs.Prelude.{◌≡◌, bytes_eq};
ghost use Rattle.serde_json.specs.View.{members_view};
ghost use Rattle.check_require.specs.Members.{is_member_name, has_unknown, member_name};

use serde_json::{Map, Value};

/// A member of the text. What it asks, its default and when it is met stand in the definitions of
/// the same names.
#[derive(Clone, Copy, PartialEq, Eq, Debug, Default)]
pub enum Member {
    /// What the update is for: `image`, `table`, `flash` or `none`.
    #[default]
    Effect,
    /// Whether each record of the script has to do something.
    Records,
    /// Whether each image that the script wrote has to be valid.
    Written,
    /// Whether each image that was valid before has to stay so.
    Keep,
    /// Whether images have to find their data whole.
    Data,
    /// What else than the former or the finished answer a loss of power may leave.
    Cuts,
    /// Which versions may come: `up`, `same` or `any`.
    Version,
    /// Whether the other member of the pair has to hold a valid image.
    Fallback,
    /// Whether the script has to come to the same end when it is played again.
    Again,
    /// Whether an image that starts has to have all its bytes.
    Covered,
    /// Whether the image that starts has to have a digest over what it loads.
    Hash,
    /// Whether no rollback row may rise.
    NoRows,
    /// How strong a law of the session has to be: `staged`, `gated`, `confined` or `any`.
    Session,
    /// Whether a law has to speak of the boots' own writes.
    Boot,
    /// Whether a law has to speak of the buys.
    Buy,
    /// Which caveats may come.
    Caveats,
}

/// The members, in the order in which they are judged and told.
pub const MEMBERS: [Member; 16] = [
    Member::Effect,
    Member::Records,
    Member::Written,
    Member::Keep,
    Member::Data,
    Member::Cuts,
    Member::Version,
    Member::Fallback,
    Member::Again,
    Member::Covered,
    Member::Hash,
    Member::NoRows,
    Member::Session,
    Member::Boot,
    Member::Buy,
    Member::Caveats,
];

impl Member {
    /// The member's name in a text.
    pub fn name(self) -> &'static str
        ensures { result.now ≡ member_name self }
    {
        match self {
            Member::Effect => "effect",
            Member::Records => "records",
            Member::Written => "written",
            Member::Keep => "keep",
            Member::Data => "data",
            Member::Cuts => "cuts",
            Member::Version => "version",
            Member::Fallback => "fallback",
            Member::Again => "again",
            Member::Covered => "covered",
            Member::Hash => "hash",
            Member::NoRows => "no_rows",
            Member::Session => "session",
            Member::Boot => "boot",
            Member::Buy => "buy",
            Member::Caveats => "caveats",
        }
    }
}

/// Whether a name is that of a member.
fn is_member_name(name: &str) -> bool
    ensures { result ≡ is_member_name name.now }
{
    MEMBERS.iter().any(|member| name == member.name())
}

/// Whether an object has a member of another name.
pub(crate) fn has_unknown(members: &Map<String, Value>) -> bool
    ensures { result ≡ has_unknown (members_view members.now.entries) }
{
    for (name, _) in members.iter() {
        if !is_member_name(name.as_str()) {
            return true;
        }
    }
    false
}
