//! Laws of documents that are written and read. Each function does nothing, and its clause is the law.
ghost use Rattle.std.specs.Prelude.{◌≡◌, ℕ, List, None};
ghost use Rattle.std.specs.Bool.{Decides};
ghost use Rattle.kube_meta.specs.View.{ObjectView};
ghost use Rattle.kube_meta.specs.Document.{document};
ghost use Rattle.object_reading.specs.Keeping.{KeepsRules};
ghost use Rattle.object_reading.specs.Numbers.{is_number, HasNumber};
ghost use Rattle.object_reading.specs.Parts.{whole_in};
ghost use Rattle.object_reading.specs.Refusal.{refusal};
ghost use Rattle.object_reading.specs.Written.{IsWritable};

/// A text passes for a number exactly where it is the decimal text of a number below 2^64.
pub fn numbers()
    ensures { (s : List ℕ) → Decides (is_number s) (HasNumber s) }
{}

/// Nothing is refused of the document of an object whose metadata keep the rules.
pub fn accepted()
    ensures { (x : ObjectView) → KeepsRules x.meta → refusal x.kind (document x) ≡ None }
{}

/// The document of an object is read back as the object.
pub fn read_back()
    ensures { (x : ObjectView) → IsWritable x → whole_in (document x) ≡ x }
{}
