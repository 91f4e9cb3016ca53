//! What reading gives of each text.
ghost use Rattle.std.specs.Prelude.{◌≡◌, ◌↔◌, ℕ, List, Ok, Err};
ghost use Rattle.pl_stl.specs.declared.mesh.Facet.{Facet};
ghost use Rattle.pl_stl.specs.declared.fault.StlFault.{StlFault};
ghost use Rattle.pl_stl.specs.Grammar.{IsMeshText, IsFirstBreach};
ghost use Rattle.pl_stl.specs.Reading.{mesh_of, breach};

/// A law: reading gives facets exactly where the text is that of their mesh, and a breach exactly where it is the
/// text's first one.
pub fn mesh_texts_have_one_reading()
    ensures meshes { (bytes : List ℕ) (facets : List Facet) → (mesh_of bytes ≡ Ok facets) ↔ IsMeshText bytes facets }
    ensures breaches { (bytes : List ℕ) (line : ℕ) (fault : StlFault) → (mesh_of bytes ≡ Err (breach line fault)) ↔ IsFirstBreach bytes line fault }
{}
