// Laws of files that are filled before they are in use, of a store that is made larger, and of spare slots.
ghost use Rattle.std.specs.Prelude.{◌≡◌, ◌≢◌, ◌<◌, ◌≤◌, ◌+◌, ◌^◌, ℕ, IsTrue, List, [], ◌∷◌, length};
ghost use Rattle.disk_model.specs.Disk.{Torn, written_over};
ghost use Rattle.oper_core.specs.Cell.{Cell};
ghost use Rattle.formats.specs.Bytes.{byte_at};
ghost use Rattle.oper_core.specs.State.{is_among};
ghost use Rattle.formats.specs.Objects.{cell_of, layout_in, place_in};
ghost use Rattle.formats.specs.declared.params.Params.{Params};
ghost use Rattle.stable_objects.specs.Upgrades.Filling.{IsFilledTo};
ghost use Rattle.stable_objects.specs.Upgrades.Larger.{IsFirst, IsStill, HasLastHead, end_of_slots, seconded};
ghost use Rattle.stable_objects.specs.Making.{IsNewFile, KeepsFront, opened};
ghost use Rattle.stable_objects.specs.Replacing.{IsPut};
ghost use Rattle.stable_objects.specs.Ready.{AreHeld, AreOldOrNew, AreOpened, AreReady, KeepsButGatesOf};
ghost use Rattle.stable_objects.specs.SlotsView.{SlotsView, AreOf};
ghost use Rattle.stable_objects.specs.Spares.{IsUnseen, KeepsButGates, KeepsButSpares};

/// A new file is filled by the pairs of its objects, one after the other, and its slots stay in their places; an object without
/// a pair is passed over.
pub fn a_file_is_filled()
    ensures begins { (p : Params) (cells : ℕ → Cell) (file : List ℕ) → IsNewFile p file → IsFilledTo p 0 cells file }
    ensures put { (p : Params) (n : ℕ) (cells : ℕ → Cell) (old new : List ℕ) → IsFilledTo p n cells old → n < p.objects → 1 ≤ (cells n).lsn → (cells n).lsn < 2 ^ 62 →
        length (cells n).value ≤ p.cap → IsPut (place_in old n 0) (cells n).lsn (cells n).value old new → IsFilledTo p (n + 1) cells new × (layout_in new ≡ layout_in old) }
    ensures passed { (p : Params) (n : ℕ) (cells : ℕ → Cell) (file : List ℕ) → IsFilledTo p n cells file → n < p.objects → cells n ≡ record { lsn = 0; value = [] } →
        IsFilledTo p (n + 1) cells file }
{}

/// What is put into a slot is put so whatever a byte before it is. So the byte of the gate, or of the version, that makes
/// the file one of a store may be written last.
pub fn a_byte_is_written_later()
    ensures put { (at byte place lsn : ℕ) (value old new : List ℕ) → at < place → at < length old → IsPut place lsn value old new →
        IsPut place lsn value (written_over at (byte ∷ []) old) (written_over at (byte ∷ []) new) }
    ensures gate { (file : List ℕ) → opened file ≡ written_over 0 (1 ∷ []) file }
{}

/// A store of version 1 stays as it is while a larger one is laid out behind its slots, if the last slot's head stands in the
/// file.
pub fn a_store_stays_while_it_grows()
    ensures { (slots : SlotsView) (old new : List ℕ) → AreOf slots old → IsFirst slots → HasLastHead slots old → KeepsFront (end_of_slots slots) old new →
        IsStill slots old new × HasLastHead slots new }
{}

/// The write of its version, if it is torn, leaves it a store of version 1, or is done.
pub fn a_version_is_one_of_two()
    ensures first { (slots : SlotsView) (old new : List ℕ) → AreOf slots old → IsFirst slots → Torn 8 1 old new → byte_at 8 new ≢ 50 → IsStill slots old new }
    ensures second { (slots : SlotsView) (old new : List ℕ) → AreOf slots old → IsFirst slots → Torn 8 1 old new → byte_at 8 new ≡ 50 → new ≡ seconded old }
{}

/// While gates of spare slots are closed, and while what closed ones have behind their gates is written, torn or not, each object has
/// the pair that it had.
pub fn spare_slots_are_not_seen()
    ensures gates { (slots : SlotsView) (old new : List ℕ) → AreOf slots old → KeepsButGates slots old new → IsUnseen slots.params old new }
    ensures spares { (slots : SlotsView) (old new : List ℕ) → AreOf slots old → KeepsButSpares slots old new → AreOf slots new × IsUnseen slots.params old new }
{}

/// While gates of slots that are ready are opened, any of them, each object has the pair that it had or the one that it is to
/// have; and that one where its gate is open.
pub fn ready_gates_open_alone()
    ensures any { (slots : SlotsView) (objects : List ℕ) (pairs : ℕ → Cell) (old new : List ℕ) → AreOf slots old → AreReady slots old objects pairs → KeepsButGatesOf slots objects old new →
        AreOldOrNew slots.params objects pairs old new }
    ensures opened { (slots : SlotsView) (objects : List ℕ) (pairs : ℕ → Cell) (old new : List ℕ) → AreOf slots old → AreReady slots old objects pairs → KeepsButGatesOf slots objects old new →
        AreOpened slots objects new → (x : ℕ) → x < slots.params.objects → IsTrue (is_among x objects) → cell_of x new ≡ pairs x }
    ensures held { (slots later : SlotsView) (objects : List ℕ) (pairs : ℕ → Cell) (old new : List ℕ) → AreOf slots old → AreReady slots old objects pairs → KeepsButGatesOf slots objects old new →
        AreOpened slots objects new → AreHeld slots later objects pairs → AreOf later new }
{}
