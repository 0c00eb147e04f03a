//! What the operations are on pages, as laws on definitions.

ghost use Rattle.std.specs.Prelude.{◌≡◌, ◌∷◌, [], ◌<◌, ℕ, true, false, All, IsTrue, T, Some, List, length, map};
ghost use Rattle.std.specs.FinMap.Entries.{find, is_sorted, put};
ghost use Rattle.key_entries.specs.Entries.{byte_order};
ghost use Rattle.key_entries.specs.Pairs.{has, without};
ghost use Rattle.std.specs.Result.{result_err};
ghost use Rattle.oper_core.specs.declared.bounds.Bounds.{Bounds};
ghost use Rattle.page_ops.specs.Page.{AreShort, Cell, Page, page_code, page_of};
ghost use Rattle.page_ops.specs.Reading.{beside_of, found_in, has_cell, key_of, opens, seek, stands_at, under};
ghost use Rattle.page_ops.specs.OnCells.{IsShortPage, beside_at, key_at, made_on, may_stand, replaced, written_on};
ghost use Rattle.page_ops.specs.Search.{last_under, place_for};
ghost use Rattle.page_ops.specs.Operation.{page_meaning, read_by};
ghost use Rattle.page_ops.specs.declared.page_op.PageOp.{PageOp};
ghost use Rattle.page_ops.specs.declared.page_op.PageOp.TheVariants.{Put};

/// On the bytes of pages each operation is the one on their cells: it is refused for the same cause, and writes the bytes of the
/// page that it makes of them, whose places fit it again. The empty value in which a cell is put counts as a leaf without cells.
pub fn operations_are_on_cells()
    ensures check { (b : Bounds) (op : PageOp) (pages : List Page) → All IsShortPage pages → length pages ≡ length (read_by op)
        → (page_meaning b).check op (map page_code pages) ≡ result_err (made_on b.cap op pages) }
    ensures effect { (b : Bounds) (op : PageOp) (pages : List Page) → All IsShortPage pages → length pages ≡ length (read_by op)
        → (page_meaning b).effect op (map page_code pages) ≡ written_on (made_on b.cap op pages) ∷ [] }
    ensures short { (page : Page) → length (page_code page) < 65536 → AreShort page.cells }
    ensures empty { (b : Bounds) (x i : ℕ) (key value : List ℕ)
        → ((page_meaning b).check (Put x i key value) ([] ∷ []) ≡ (page_meaning b).check (Put x i key value) (page_of 0 [] ∷ []))
        × ((page_meaning b).effect (Put x i key value) ([] ∷ []) ≡ (page_meaning b).effect (Put x i key value) (page_of 0 [] ∷ [])) }
{}

/// On a page whose keys rise the search finds the place of a key: how many keys are below it. Where a cell has the key, it is that
/// of the place, and a set and a delete there are those of the map of the cells; else the key may stand there, and a put makes
/// that map with it. Other searches find what the map has at a key, and the last cell whose key is not above it.
pub fn a_search_finds_the_place()
    ensures place { (page : Page) (key : List ℕ) → AreShort page.cells → T (is_sorted byte_order page.cells) → seek (page_code page) key ≡ Some (place_for key page.cells) }
    ensures there { (page : Page) (key : List ℕ) → AreShort page.cells → T (is_sorted byte_order page.cells) → stands_at (page_code page) (place_for key page.cells) key ≡ has key page.cells }
    ensures cell { (page : Page) (i : ℕ) → AreShort page.cells → i < length page.cells
        → (has_cell (page_code page) i ≡ true) × (key_of (page_code page) i ≡ key_at page.cells i) × (beside_of (page_code page) i ≡ beside_at page.cells i) }
    ensures opens { (page : Page) → AreShort page.cells → opens (page_code page) ≡ true }
    ensures got { (page : Page) (key : List ℕ) → AreShort page.cells → T (is_sorted byte_order page.cells) → found_in (page_code page) key ≡ Some (find byte_order key page.cells) }
    ensures under { (page : Page) (key : List ℕ) → AreShort page.cells → T (is_sorted byte_order page.cells) → under (page_code page) key ≡ last_under key page.cells }
    ensures set { (key value : List ℕ) (cells : List Cell) → T (is_sorted byte_order cells) → has key cells ≡ true
        → replaced (place_for key cells) 1 ((key_at cells (place_for key cells), value) ∷ []) cells ≡ put byte_order key value cells }
    ensures delete { (key : List ℕ) (cells : List Cell) → T (is_sorted byte_order cells) → has key cells ≡ true → replaced (place_for key cells) 1 [] cells ≡ without key cells }
    ensures put { (key value : List ℕ) (cells : List Cell) → T (is_sorted byte_order cells) → has key cells ≡ false
        → replaced (place_for key cells) 0 ((key, value) ∷ []) cells ≡ put byte_order key value cells }
    ensures goes { (key : List ℕ) (cells : List Cell) → T (is_sorted byte_order cells) → has key cells ≡ false → IsTrue (may_stand cells (place_for key cells) key) }
{}
