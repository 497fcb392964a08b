//! Why a text is no table, no spec and no OTP, and the members that a text may have.

ghost use Rattle.std.specs.Prelude.{◌≡◌};
ghost use Rattle.table_json.specs.Members.{member_name};

use part_table::TableFault;
use thiserror::Error;

/// An object of a text.
#[derive(Clone, Copy, PartialEq, Eq, Debug)]
pub enum Place {
    /// The text's value itself.
    Top,
    /// What the text says of the sectors that no partition has.
    Unpartitioned,
    /// The partition with this number, counted from 0.
    Partition(u32),
}

/// A member of an object.
#[derive(Clone, Copy, PartialEq, Eq, Debug)]
pub enum Field {
    /// The version, of a table or an image: two numbers below 65,536, major first.
    Version,
    /// Whether the table is the only one.
    Singleton,
    /// What is said of the sectors that no partition has.
    Unpartitioned,
    /// The UF2 families accepted.
    Families,
    /// Who may read and write.
    Permissions,
    /// The list of partitions.
    Partitions,
    /// A partition's first sector.
    First,
    /// A partition's last sector.
    Last,
    /// A partition's id.
    Id,
    /// A partition's name.
    Name,
    /// The partition that a partition's link names, and how.
    Link,
    /// Whether a partition is ignored in an Arm boot.
    IgnoreArm,
    /// Whether a partition is ignored in a RISC-V boot.
    IgnoreRiscv,
    /// Whether no boot follows a download into a partition.
    NoReboot,
    /// The processor that an image is sealed for.
    Processor,
    /// The rollback version of an image.
    Rollback,
    /// The OTP rows of the rollback version, or the rows of an OTP with their values.
    Rows,
    /// Whether an image is on trial.
    Trial,
    /// Whether a board requires rollback versions.
    RollbackRequired,
    /// Whether flash boot is off.
    FlashOff,
    /// The size of a slot of a flash without a table.
    SlotSize,
    /// Whether a board asks for secure boot.
    SecureBoot,
}

/// Why a text is no table, no spec or no OTP: the first that applies.
#[derive(Clone, Copy, PartialEq, Eq, Debug, Error)]
pub enum JsonFault {
    /// The bytes are not UTF-8, or no JSON value that nests at most 127 deep.
    #[error("the text is no JSON")]
    NotJson,
    /// The object has a member that is not listed for it.
    #[error("an object has a member that is not listed")]
    Unknown(Place),
    /// The object lacks this required member.
    #[error("an object lacks a member")]
    Missing(Place, Field),
    /// The object's member has another form. Where the value is no object at all, the field is the
    /// one that stands for that.
    #[error("a member has another form")]
    Value(Place, Field),
    /// The block of the table would have this many bytes, more than 640.
    #[error("the table's block has {0} bytes, more than 640")]
    TooLong(u64),
    /// The fault of the table in a flash of 4096 sectors; the first two are not free.
    #[error("the table has a fault")]
    Table(TableFault),
    /// There was no memory.
    #[error("out of memory")]
    Memory,
}

impl Field {
    /// The member's name.
    pub fn name(self) -> &'static str
        ensures { result.now ≡ member_name self }
    {
        match self {
            Field::Version => "version",
            Field::Singleton => "singleton",
            Field::Unpartitioned => "unpartitioned",
            Field::Families => "families",
            Field::Permissions => "permissions",
            Field::Partitions => "partitions",
            Field::First => "first",
            Field::Last => "last",
            Field::Id => "id",
            Field::Name => "name",
            Field::Link => "link",
            Field::IgnoreArm => "ignore_arm",
            Field::IgnoreRiscv => "ignore_riscv",
            Field::NoReboot => "no_reboot",
            Field::Processor => "processor",
            Field::Rollback => "rollback",
            Field::Rows => "rows",
            Field::Trial => "trial",
            Field::RollbackRequired => "rollback_required",
            Field::FlashOff => "flash_off",
            Field::SlotSize => "slot_size",
            Field::SecureBoot => "secure_boot",
        }
    }
}
