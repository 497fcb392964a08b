//! Laws of the other rules, proved: each is the `ensures` of a function that does nothing.

ghost use Rattle.std.specs.Prelude.{◌↔◌, ℕ, Contains, List};
ghost use Rattle.pico_board.specs.declared.boot.Cpu.{Cpu};
ghost use Rattle.pico_board.specs.declared.boot.BootKind.{BootKind};
ghost use Rattle.pico_board.specs.declared.window.Window.{Window};
ghost use Rattle.pico_board.specs.Content.{Content};
ghost use Rattle.boot_rules.specs.declared.decision.Decision.{Decision};
ghost use Rattle.boot_rules.specs.Chosen.{Chosen};
ghost use Rattle.slot_caveats.specs.declared.caveat.Caveat.{Caveat};
ghost use Rattle.slot_caveats.specs.declared.caveat.Caveat.TheVariants.{OtherProcessor, SlotImage, Tie, UpdateMovesUnit, FirstBlock, ItemOrder, ImageInSlot, MayStart, TableOrder};
ghost use Rattle.image_check.specs.declared.why.Why.{Why};
ghost use Rattle.boot_caveats.specs.ImageRules.{IsRollback};
ghost use Rattle.boot_caveats.specs.Rules.{AreCaveats};
ghost use Rattle.law_caveats.specs.Alternatives.{ChosenOfBoth, ChosenWithSlots, decision_early, decision_last, decision_of_both, decision_ordered, decision_slots, decision_typed, decision_unmoved, decision_unread};

/// The chip may try the other processor where no image starts. Without its caveat such a boot
/// decides as the model does.
pub fn no_doubt_of_the_processor()
    ensures { (c : Content) (cpu : Cpu) (kind : BootKind) (list : List Caveat)
        → AreCaveats c cpu kind list → ((w : Window) → Contains list (OtherProcessor w) → ⊥)
        → (d : Decision) → ChosenOfBoth c cpu kind d ↔ Chosen c cpu kind d }
{}

/// The chip may judge each member without an image that counts for the other processor too, before
/// it looks at the next unit. Without the caveat of that processor such a boot decides as the model
/// does.
pub fn no_doubt_of_the_processor_first()
    ensures { (c : Content) (cpu : Cpu) (kind : BootKind) (list : List Caveat)
        → AreCaveats c cpu kind list → ((w : Window) → Contains list (OtherProcessor w) → ⊥)
        → Chosen c cpu kind (decision_of_both c cpu kind) }
{}

/// The chip may try the two slots of a flash without a table where no image starts. Without their
/// caveat such a boot decides as the model does.
pub fn no_doubt_of_the_slots()
    ensures { (c : Content) (cpu : Cpu) (kind : BootKind) (list : List Caveat)
        → AreCaveats c cpu kind list → ((w : Window) → Contains list (SlotImage w) → ⊥)
        → (d : Decision) → ChosenWithSlots c cpu kind d ↔ Chosen c cpu kind d }
{}

/// On a tie the chip may take B. Without the caveat of a tie such a boot decides as the model
/// does.
pub fn no_doubt_of_a_tie()
    ensures { (c : Content) (cpu : Cpu) (kind : BootKind) (list : List Caveat)
        → AreCaveats c cpu kind list → ((w v : Window) → Contains list (Tie w v) → ⊥)
        → Chosen c cpu kind (decision_last c cpu kind) }
{}

/// An update boot of the chip may leave the order of the units. Without the caveat of a moved unit
/// such a boot decides as the model does.
pub fn no_doubt_of_an_update()
    ensures { (c : Content) (cpu : Cpu) (kind : BootKind) (list : List Caveat)
        → AreCaveats c cpu kind list → ((part : ℕ) → Contains list (UpdateMovesUnit part) → ⊥)
        → Chosen c cpu kind (decision_unmoved c cpu kind) }
{}

/// For the chip a definition may have to begin with its IMAGE_TYPE item. Without the caveat of the
/// order of items such a boot decides as the model does.
pub fn no_doubt_of_the_item_order()
    ensures { (c : Content) (cpu : Cpu) (kind : BootKind) (list : List Caveat)
        → AreCaveats c cpu kind list → ((w : Window) → Contains list (ItemOrder w) → ⊥)
        → Chosen c cpu kind (decision_typed c cpu kind) }
{}

/// For the chip a first block may have to end within 4096 bytes. Without the caveat of a first
/// block such a boot decides as the model does.
pub fn no_doubt_of_first_blocks()
    ensures { (c : Content) (cpu : Cpu) (kind : BootKind) (list : List Caveat)
        → AreCaveats c cpu kind list → ((w : Window) → Contains list (FirstBlock w) → ⊥)
        → Chosen c cpu kind (decision_early c cpu kind) }
{}

/// Where there is a table the chip may try the two slots, as windows of one slot size, before the
/// units of the table. Without the caveat of such an image such a boot decides as the model does.
pub fn no_doubt_of_slots_beside_a_table()
    ensures { (c : Content) (cpu : Cpu) (kind : BootKind) (list : List Caveat)
        → AreCaveats c cpu kind list → ((number : ℕ) → Contains list (ImageInSlot number) → ⊥)
        → Chosen c cpu kind (decision_slots c cpu kind) }
{}

/// For the chip a table's block may have to begin with its PARTITION_TABLE item. Without the caveat
/// of the order of its items such a boot decides as the model does.
pub fn no_doubt_of_the_table_order()
    ensures { (c : Content) (cpu : Cpu) (kind : BootKind) (list : List Caveat)
        → AreCaveats c cpu kind list → ((number : ℕ) → Contains list (TableOrder number) → ⊥)
        → Chosen c cpu kind (decision_ordered c cpu kind) }
{}

/// The chip may not apply the rule on rollback rows. Such a boot decides otherwise than the model
/// exactly where the caveat of an image that fails this rule is listed.
pub fn no_doubt_of_rollback_rows()
    ensures same { (c : Content) (cpu : Cpu) (kind : BootKind) (list : List Caveat)
        → AreCaveats c cpu kind list
        → ((w : Window) (why : Why) → IsRollback why → Contains list (MayStart w why) → ⊥)
        → Chosen c cpu kind (decision_unread c cpu kind) }
    ensures exactly { (c : Content) (cpu : Cpu) (kind : BootKind) (list : List Caveat)
        → AreCaveats c cpu kind list
        → ((w : Window) × (why : Why) × IsRollback why × Contains list (MayStart w why))
        ↔ (Chosen c cpu kind (decision_unread c cpu kind) → ⊥) }
{}
