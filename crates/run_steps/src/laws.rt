//! What the definitions of the steps mean: the function does nothing, and its contract is the law.
ghost use Rattle.std.specs.Prelude.{ℕ, List, Option, IsSome};
ghost use Rattle.host_io.specs.Files.{FileMap};
ghost use Rattle.run_steps.specs.Page.{file_limit, AreRead, HasManifest, HasBytes};
ghost use Rattle.run_steps.specs.Steps.{Comes, NoManifest, NoFiles, NoBytes, HasItems, NoItems};
ghost use Rattle.run_steps.specs.Reading.{ComesThrough, IsTraceThere};

/// A step gives something or stops where each file is there to which it comes: so the work on a request comes
/// to its end, whatever the bytes of the files.
pub fn some_step()
    ensures manifest { (files : FileMap) (name : List ℕ) → IsSome (files name) →
        Comes (HasManifest files name) (NoManifest files name) }
    ensures files { (files : FileMap) (names : List (List ℕ)) → ComesThrough files file_limit names →
        Comes (AreRead files file_limit names) (NoFiles files names) }
    ensures items { (files : FileMap) (names : List (List ℕ)) (trace : Option (List ℕ)) → IsTraceThere files trace →
        Comes (HasItems files names trace) (NoItems files names trace) }
    ensures bytes { (files : FileMap) (limit : ℕ) (name : List ℕ) → IsSome (files name) →
        Comes (HasBytes files limit name) (NoBytes files limit name) }
{}
