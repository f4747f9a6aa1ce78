//! What holds of merge information. The functions do nothing: their contracts are the laws.
ghost use Rattle.std.specs.Prelude.{◌≡◌, All, List, Some};
ghost use Rattle.mergeinfo.specs.{Normal.normal_form, Sources.{SourceValue, IsNormal, IsNormalFormOf, IsRightSource}, Texts.{IsReadFrom, sources_of, written}};

/// Shows that what is written names the sources that it was written from, and is read as them.
pub fn written_is_read()
    ensures names { (info : List SourceValue) → IsNormal info → All IsRightSource info
        → sources_of (written info) ≡ Some info }
    ensures read { (info : List SourceValue) → IsNormal info → All IsRightSource info
        → IsReadFrom (written info) (Some info) }
{}

/// Shows that sources have one normal form, `normal_form` of them.
pub fn normal_forms_are_one()
    ensures is { (sources : List SourceValue) → IsNormalFormOf sources (normal_form sources) }
    ensures only { (sources told : List SourceValue) → IsNormalFormOf sources told
        → told ≡ normal_form sources }
{}
