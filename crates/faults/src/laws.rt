//! Laws of the definitions. Nothing runs.

ghost use Rattle.faults.specs.ExplanationRows.{ReasonsByOctets, TriesByOctets};
ghost use Rattle.faults.specs.Explanations.{IsOneLine, explained};
ghost use Rattle.faults.specs.KindsMean.{BareWords, ImagesHaveKinds, KindsHaveNumbers, NumbersHaveKinds, PagesHaveKinds};
ghost use Rattle.faults.specs.declared.explain.Known.{Known};
ghost use Rattle.faults.specs.declared.fault.ToolFault.{ToolFault};

/// A fault in words is one line, without LF or another control character, whatever is known of the fault.
pub fn explained_in_one_line()
    ensures { (fault : ToolFault) (known : Known) → IsOneLine (explained fault known) }
{}

/// A fault's kind has the number that its line shows. A fault with the number of a known kind, of a whole file or at any bit or line, has
/// that kind. The faults of `raster` and `run_tables` have the kinds of the same names. If nothing more is known of a fault, it is
/// explained by the words of its kind.
pub fn kinds_of_faults()
    ensures number { KindsHaveNumbers }
    ensures kind { NumbersHaveKinds }
    ensures images { ImagesHaveKinds }
    ensures pages { PagesHaveKinds }
    ensures words { BareWords }
{}

/// Words that no file of a test shows, by octets: the system's reasons, and what is tried where the first row of a page is refused.
pub fn explained_by_octets()
    ensures reasons { ReasonsByOctets }
    ensures tries { TriesByOctets }
{}
