//! What holds of manifests.
ghost use Rattle.std.specs.Prelude.{◌≡◌, ℕ, List};
ghost use Rattle.serde_json.specs.Data.{Data};
ghost use Rattle.json_shapes.specs.Json.{IsJson, version_of};
ghost use Rattle.manifest_reader.specs.Manifest.{ReadsManifest};
ghost use Rattle.manifest_reader.specs.Same.{IsSame};
ghost use Rattle.manifest_reader.specs.Versions.{with_version};

use crate::entry::Manifest;

/// Bytes are one manifest at most.
pub fn one_manifest()
    ensures { (bytes : List ℕ) (one other : Manifest) → ReadsManifest bytes one → ReadsManifest bytes other →
        IsSame one other }
{}

/// A manifest of version 1 and the same text with version 2 are the same manifest: a text whose
/// value differs in the version alone reads as what the first text reads as, and as no other.
pub fn versions_agree()
    ensures reads { (bytes others : List ℕ) (d : Data) (manifest : Manifest) → IsJson bytes d →
        IsJson others (with_version 2 d) → version_of d ≡ 1 → ReadsManifest bytes manifest →
        ReadsManifest others manifest }
    ensures same { (bytes others : List ℕ) (d : Data) (one other : Manifest) → IsJson bytes d →
        IsJson others (with_version 2 d) → version_of d ≡ 1 → ReadsManifest bytes one →
        ReadsManifest others other → IsSame one other }
{}
