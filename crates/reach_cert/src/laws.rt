//! What certificates show, and what their definitions come to.
ghost use Rattle.std.specs.Prelude.{◌≡◌, ◌<◌, ◌≤◌, ◌↔◌, ℕ, List, length, map, true};
ghost use Rattle.std.specs.List.{AllByRecursion, IsDistinct, list_all};
ghost use Rattle.std.specs.Str.{bytes_eq};
ghost use Rattle.reach_cert.specs.declared.cert.Ref.{Ref};
ghost use Rattle.reach_cert.specs.Certs.{Slot, cert_lines, cert_text};
ghost use Rattle.reach_cert.specs.Shape.{IsCert, IsBadLine, is_name, slot_name};
ghost use Rattle.reach_cert.specs.Walks.{Leads, IsOwn, IsConfined, KeepsIn, leaks};

/// The theorem of reach: where a certificate is confined, every walk from a widget's `held` line
/// stays on `host` and on that widget's own cell lines.
pub fn walks_stay()
    ensures { (slots : List Slot) → IsConfined slots →
        (name : List ℕ) (target : Ref) → Leads slots name target → IsOwn slots name target }
{}

/// A certificate is not confined where some walk meets a node of the page itself, or the Global
/// cell; and there is a certificate with such a walk.
pub fn raw_is_not_confined()
    ensures raw { (slots : List Slot) (name : List ℕ) → Leads slots name Ref.Raw → ¬ (IsConfined slots) }
    ensures global { (slots : List Slot) (name : List ℕ) → Leads slots name Ref.Global → ¬ (IsConfined slots) }
    ensures some { (slots : List Slot) × (name : List ℕ) × Leads slots name Ref.Raw }
{}

/// A certificate is confined exactly where no line of any of its slots has a reference that is neither
/// `host` nor a cell line of the same slot.
pub fn each_slot_keeps_in()
    ensures { (slots : List Slot) → IsConfined slots ↔ AllByRecursion KeepsIn slots }
{}

/// A confined certificate of at most 16 slots is of the stated shape, where their names are names of slots and differ.
pub fn confined_has_shape()
    ensures { (slots : List Slot) → IsConfined slots → length slots ≤ 16 →
        list_all is_name (map slot_name slots) ≡ true → IsDistinct bytes_eq (map slot_name slots) →
        length (cert_lines slots) < 4294967295 → IsCert slots }
{}

/// Each line of a certificate is judged, so the place of a judgement is that of its line.
pub fn each_line_is_judged()
    ensures { (slots : List Slot) → length (leaks slots) ≡ length (cert_lines slots) }
{}

/// Bytes are the text of one certificate of the stated shape at most, or are refused at one line.
pub fn one_answer()
    ensures one_cert { (slots others : List Slot) → IsCert slots → IsCert others → cert_text slots ≡ cert_text others
        → slots ≡ others }
    ensures one_line { (bytes : List ℕ) (line other : ℕ) → IsBadLine bytes line → IsBadLine bytes other → line ≡ other }
    ensures no_cert { (bytes : List ℕ) (line : ℕ) (slots : List Slot) → IsBadLine bytes line → IsCert slots
        → ¬ (cert_text slots ≡ bytes) }
{}
