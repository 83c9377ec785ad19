//! Laws of PBM files, and of bits and octets: calls that do nothing, whose contracts are the laws.

ghost use Rattle.raster.specs.ByNumbers.{FaultsHaveNumbers, LimitsByNumber, PbmByOctets};
ghost use Rattle.raster.specs.Laws.{BitsJoin, PackedHold, PackedAlone};
ghost use Rattle.raster.specs.Pbm.{ReadsImages};
ghost use Rattle.raster.specs.PbmFaults.{NamesFirstFault, AreFaultExamples};
ghost use Rattle.raster.specs.PbmText.{ReadsWritten};

/// The bits of octets followed by others are the bits of all the octets, in either order.
pub fn bits_join()
    ensures { BitsJoin }
{}

/// Packed bits, the least significant bit of each octet first, are octets whose bits are the bits and the 0
/// bits that fill them.
pub fn packed_hold()
    ensures { PackedHold }
{}

/// Octets that are the bits, followed by fewer than eight 0 bits, are the packed bits.
pub fn packed_alone()
    ensures { PackedAlone }
{}

/// Reading gives pages exactly if the octets are their images.
pub fn pbm_reads_exactly()
    ensures { ReadsImages }
{}

/// Reading returns a fault exactly if it is the first one of the octets; octets are images or have one first
/// fault, and never both.
pub fn pbm_first_fault()
    ensures { NamesFirstFault }
{}

/// Nineteen written-out files have the first faults that the format gives them.
pub fn pbm_fault_examples()
    ensures { AreFaultExamples }
{}

/// The octets that are written of pages are images that read as these pages, with fine lines or not as the
/// reader's caller says; and pages have only one such text.
pub fn pbm_round_trip()
    ensures { ReadsWritten }
{}

/// A fault has its number, 1 to 9, in the list of all faults, and no other.
pub fn faults_have_numbers()
    ensures { FaultsHaveNumbers }
{}

/// A row has 1 to 2,432 pixels, and an image 1 to 20,000 rows.
pub fn limits_by_number()
    ensures { LimitsByNumber }
{}

/// The whitespace octets by number, and written-out files with their pages.
pub fn pbm_by_octets()
    ensures { PbmByOctets }
{}
