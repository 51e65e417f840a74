//! What the lines of bytes are.
ghost use Rattle.std.specs.Prelude.{◌≡◌, ◌≢◌, ℕ, List, [], ◌∷◌, ◌++◌};
ghost use Rattle.host_io.specs.Lines.{lines_of, IsLine};

/// A line feed ends a line, and the end of the bytes one that is not empty.
pub fn lines_of_bytes()
    ensures empty { lines_of [] ≡ [] }
    ensures ended { (line rest : List ℕ) → IsLine line → lines_of (line ++ 10 ∷ rest) ≡ line ∷ lines_of rest }
    ensures last { (line : List ℕ) → IsLine line → line ≢ [] → lines_of line ≡ line ∷ [] }
{}
