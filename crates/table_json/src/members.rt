//! The members of the objects of a text.

ghost use Rattle.std.specs.Prelude.{◌≡◌, bytes_eq, option_map};
ghost use Rattle.std.specs.List.{list_any};
ghost use Rattle.serde_json.specs.Find.{get, as_object};
ghost use Rattle.serde_json.specs.View.{view, members_view};
ghost use Rattle.table_json.specs.Members.{place_names, further_names, is_member_name, has_unknown, members_judged, object_judged, member_name, required, optional};

use crate::{Field, JsonFault, Place};
use serde_json::{Map, Value};

/// The objects whose members are listed.
#[derive(Clone, Copy, PartialEq, Eq)]
pub(crate) enum Shape {
    /// A table.
    OfTable,
    /// What a table says of the sectors that no partition has.
    OfUnpartitioned,
    /// A partition.
    OfPartition,
    /// Who may read and write.
    OfPermissions,
    /// The spec of a sealed image.
    OfSpec,
    /// The OTP of a board.
    OfOtp,
}

/// Whether a text is this word.
pub(crate) fn is_word(text: &str, word: &str) -> bool
    ensures { result ≡ bytes_eq text.now word.now }
{
    text == word
}

/// Whether a name is listed for a table.
fn is_table_member(name: &str) -> bool
    ensures { result ≡ is_member_name Shape.OfTable name.now }
{
    is_word(name, "version")
        || is_word(name, "singleton")
        || is_word(name, "unpartitioned")
        || is_word(name, "partitions")
}

/// Whether a name is listed for what a table says of the sectors that no partition has.
fn is_unpartitioned_member(name: &str) -> bool
    ensures { result ≡ is_member_name Shape.OfUnpartitioned name.now }
{
    is_word(name, "families") || is_word(name, "permissions")
}

/// Whether a name is one of the first five that are listed for a partition.
fn is_place_member(name: &str) -> bool
    ensures { result ≡ list_any (bytes_eq name.now) place_names }
{
    is_word(name, "first")
        || is_word(name, "last")
        || is_word(name, "families")
        || is_word(name, "permissions")
        || is_word(name, "id")
}

/// Whether a name is one of the last five that are listed for a partition.
fn is_further_member(name: &str) -> bool
    ensures { result ≡ list_any (bytes_eq name.now) further_names }
{
    is_word(name, "name")
        || is_word(name, "link")
        || is_word(name, "ignore_arm")
        || is_word(name, "ignore_riscv")
        || is_word(name, "no_reboot")
}

/// Whether a name is listed for a partition.
fn is_partition_member(name: &str) -> bool
    ensures { result ≡ is_member_name Shape.OfPartition name.now }
{
    is_place_member(name) || is_further_member(name)
}

/// Whether a name is listed for permissions.
fn is_permissions_member(name: &str) -> bool
    ensures { result ≡ is_member_name Shape.OfPermissions name.now }
{
    is_word(name, "secure") || is_word(name, "nonsecure") || is_word(name, "bootloader")
}

/// Whether a name is listed for a spec.
fn is_spec_member(name: &str) -> bool
    ensures { result ≡ is_member_name Shape.OfSpec name.now }
{
    is_word(name, "processor")
        || is_word(name, "version")
        || is_word(name, "rollback")
        || is_word(name, "rows")
        || is_word(name, "trial")
}

/// Whether a name is listed for an OTP.
fn is_otp_member(name: &str) -> bool
    ensures { result ≡ is_member_name Shape.OfOtp name.now }
{
    is_word(name, "rollback_required")
        || is_word(name, "flash_off")
        || is_word(name, "slot_size")
        || is_word(name, "rows")
        || is_word(name, "secure_boot")
}

/// Whether a name is listed for an object.
fn is_member_name(shape: Shape, name: &str) -> bool
    ensures { result ≡ is_member_name shape name.now }
{
    match shape {
        Shape::OfTable => is_table_member(name),
        Shape::OfUnpartitioned => is_unpartitioned_member(name),
        Shape::OfPartition => is_partition_member(name),
        Shape::OfPermissions => is_permissions_member(name),
        Shape::OfSpec => is_spec_member(name),
        Shape::OfOtp => is_otp_member(name),
    }
}

/// Whether a member is not listed for an object.
pub(crate) fn has_unknown(shape: Shape, members: &Map<String, Value>) -> bool
    ensures { result ≡ has_unknown shape (members_view members.now.entries) }
{
    for (name, _) in members.iter() {
        if !is_member_name(shape, name.as_str()) {
            return true;
        }
    }
    false
}

/// Value where there is no object, and Unknown where a member is not listed.
pub(crate) fn judge_object(
    value: &Value,
    shape: Shape,
    place: Place,
    field: Field,
) -> Result<(), JsonFault>
    ensures { result ≡ object_judged shape place field (view value.now) }
{
    match value.as_object() {
        None => Err(JsonFault::Value(place, field)),
        Some(members) if has_unknown(shape, members) => Err(JsonFault::Unknown(place)),
        Some(_) => Ok(()),
    }
}
