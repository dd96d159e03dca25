//! The tree that bytes have.
ghost use Rattle.std.specs.Prelude.{◌≡◌, ℕ, List, Some};
ghost use Rattle.mk_base.specs.declared.json.Json.{Json};
ghost use Rattle.mk_json.specs.Parsed.{parsed};
ghost use Rattle.mk_record_laws.specs.Sound.{IsSoundTree};

/// The tree that bytes have, if they have one, is made of texts in UTF-8, has the names of each object in byte order,
/// each once, whole numbers from -2^63 to 2^64 - 1, and nests at most 127 deep.
pub fn parsed_is_sound()
    ensures { (bytes : List ℕ) → (tree : Json) → parsed bytes ≡ Some tree → IsSoundTree tree }
{}
